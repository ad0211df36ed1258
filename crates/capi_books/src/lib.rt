// The C interface to two posts' books side by side: for test rigs, and for the comparison with a second implementation.
// It is not stable: names and packed numbers may change with any delivery.

#![tactic(auto)]

ghost use Rattle.std.specs.Prelude.{◌≡◌};
ghost use Rattle.registers.specs.Books.{comparison};
ghost use Rattle.capi_books.specs.Packed.{packed_comparison};

use registers::Comparison;
use registers::numbers::Numbers;

// An answer in one number.
#[tactic(auto, unfolding(crate::specs::Packed::packed_comparison))]
fn packed_comparison(answer: Comparison) -> u64
    ensures { result ≡ packed_comparison answer }
{
    let told = Numbers::from(answer);
    let place = (told.place % 4294967296) as u64;
    u64::from(told.refusal)
        + u64::from(told.finding) * 256
        + u64::from(told.which) * 65536
        + place * 4294967296
}

// Compares two posts' books, which are only read.
#[unsafe(no_mangle)]
pub extern "C" fn bsr_books(first: &[u8], second: &[u8]) -> u64
    ensures { result ≡ packed_comparison (comparison first.now second.now) }
{
    packed_comparison(registers::compare(first, second))
}
