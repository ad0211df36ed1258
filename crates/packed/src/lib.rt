// What the C interface takes and returns: settings in a day file's bytes, and answers packed into one number.

#![tactic(auto)]

ghost use Rattle.std.specs.Prelude.{◌≡◌, ◌<◌, ◌≤◌, ◌^◌};
ghost use Rattle.section.specs.Refusal.{refusal_by};
ghost use Rattle.section.specs.Outcome.{told_by};
ghost use Rattle.packed.specs.Packed.{packed_reading_by, packed_figure, packed_outcome_by, packed_verdict_by, packed_indications, packed_copied};
ghost use Rattle.packed.specs.Settings.{lent_settings_well_formed};

use section::words::{refusal_of, said_by};
use section::{HasFigure, Indications, Said};

// Whether lent bytes are settings: as many as a day file has for them, eight or, with crossings, sixteen, and such that its reader takes them.
pub fn lent_settings_well_formed(bytes: &[u8]) -> bool
    ensures { result ≡ lent_settings_well_formed bytes.now }
{
    file_tests::settings_well_formed(bytes)
}

// The refusal, 0 for none, and how much was done or the refusal's index.
#[tactic(auto, unfolding(section::specs::Refusal::refusal_by, section::specs::Outcome::told_by))]
fn refusal_and_figure<R: HasFigure>(outcome: Result<usize, R>) -> (u8, usize)
    ensures { (result.0 ≡ refusal_by R.figure outcome) × (result.1 ≡ told_by R.index outcome) }
{
    match outcome {
        Ok(figure) => (0, figure),
        Err(refusal) => (refusal.figure(), refusal.index()),
    }
}

// The refusal, and the count of steps or the refusal's index: every reading of a file fits.
#[tactic(auto, unfolding(crate::specs::Packed::packed_reading_by))]
pub fn packed_reading<R: HasFigure>(reading: Result<usize, R>) -> u32
    requires { packed_reading_by R.figure R.index reading < 2 ^ 32 }
    ensures { result ≡ packed_reading_by R.figure R.index reading }
{
    let (number, figure) = refusal_and_figure(reading);
    u32::from(number) * 65536 + (figure as u32)
}

// A refusal, 0 for none, and a figure beside it, of which the lowest 32 bits are kept.
#[tactic(auto, unfolding(crate::specs::Packed::packed_figure))]
pub fn packed_figure(number: u8, figure: usize) -> u64
    ensures { result ≡ packed_figure number figure }
{
    u64::from(number) + ((figure % 4294967296) as u64) * 256
}

// The refusal, and how much was done or the refusal's index.
#[tactic(auto, unfolding(crate::specs::Packed::packed_outcome_by))]
pub fn packed_outcome<R: HasFigure>(outcome: Result<usize, R>) -> u64
    ensures { result ≡ packed_outcome_by R.figure R.index outcome }
{
    let (number, figure) = refusal_and_figure(outcome);
    packed_figure(number, figure)
}

// The refusal, and what is said.
#[tactic(auto, using(section::proofs::words::Laws::said_small), unfolding(crate::specs::Packed::packed_verdict_by))]
pub fn packed_verdict<R: HasFigure>(verdict: Result<Said, R>) -> u16
    ensures { result ≡ packed_verdict_by R.figure verdict }
{
    u16::from(refusal_of(verdict)) + u16::from(u8::from(said_by(verdict))) * 256
}

// What a post shows.
#[tactic(auto, unfolding(crate::specs::Packed::packed_indications))]
pub fn packed_indications(shown: Indications) -> u16
    ensures { result ≡ packed_indications shown }
{
    u16::from(shown.circulation) + u16::from(shown.troncon) * 8 + u16::from(shown.permission) * 64
}

// The length and 1, or 0. No buffer, and so no text in it, is as long as 2^63 bytes.
#[tactic(auto, unfolding(crate::specs::Packed::packed_copied, section::specs::Outcome::told_by, section::specs::Outcome::if_done))]
pub fn packed_copied<R: HasFigure>(done: Result<usize, R>) -> u64
    requires { packed_copied done ≤ 2 ^ 63 }
    ensures { result ≡ packed_copied done }
{
    match done {
        Ok(size) => (size as u64) + 1,
        Err(_) => 0,
    }
}
