// The C interface to the listing and the panel of a day file, over lent bytes: for the comparison with a second implementation.
// It is not stable: names and packed numbers may change with any delivery.

#![tactic(auto)]

ghost use Rattle.std.specs.Prelude.{◌≡◌};
ghost use Rattle.listing.specs.Listing.{listing};
ghost use Rattle.listing.specs.Panel.{panel};
ghost use Rattle.text.specs.Copied.{copied, copied_out};
ghost use Rattle.packed.specs.Packed.{packed_copied};

use packed::packed_copied;

// The bench listing of a file, at the front of the buffer.
#[tactic(auto, using(packed::proofs::Texts::copied_fits))]
#[unsafe(no_mangle)]
pub extern "C" fn bsr_listing(file: &[u8], buffer: &mut [u8]) -> u64
    ensures value { result ≡ packed_copied (copied (listing file.now) buffer.old) }
    ensures buffer_after { buffer.new ≡ copied_out (listing file.now) buffer.old }
{
    packed_copied(listing::listing(file, buffer))
}

// The panel of a file, at the front of the buffer.
#[tactic(auto, using(packed::proofs::Texts::copied_fits))]
#[unsafe(no_mangle)]
pub extern "C" fn bsr_panel(file: &[u8], buffer: &mut [u8]) -> u64
    ensures value { result ≡ packed_copied (copied (panel file.now) buffer.old) }
    ensures buffer_after { buffer.new ≡ copied_out (panel file.now) buffer.old }
{
    packed_copied(listing::panel(file, buffer))
}
