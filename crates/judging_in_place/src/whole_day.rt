// A day's steps, offered one after another from fresh: the special case of the walk over steps that the listing is made from.
ghost use Rattle.std.specs.Prelude.{◌≡◌, length};
ghost use Rattle.judging_in_place.specs.Notes.{day_outcome, notes_after};

use crate::{Notes, judge_steps};
use notes::NOTE_LENGTH;
use ranges::settings::settings_in_range;
use section::{CallRefusal, Outcome, STEP_LENGTH, Settings, check};

// Whether so many steps of a day can be noted in so much room: how many, or the refusal.
#[tactic(auto, using(section::proofs::Told::told_false, section::proofs::Told::told_true), unfolding(crate::specs::Notes::day_outcome))]
pub fn day_outcome(c: Settings, steps: &[u8], count: usize, room: usize) -> Outcome
    ensures { result ≡ day_outcome c steps.now count room }
{
    check(settings_in_range(c), CallRefusal::StateOutOfRange)?;
    let whole = steps.len() / STEP_LENGTH;
    check(count <= whole, CallRefusal::MalformedStep(whole))?;
    check(count <= room / NOTE_LENGTH, CallRefusal::NoRoom)?;
    Ok(count)
}

// Judges so many steps of a day, offered one after another from fresh, and writes the note of each.
#[tactic(auto, using(crate::proofs::whole_day::Laws::started, crate::proofs::whole_day::Laws::day_fits, crate::proofs::whole_day::Laws::notes_kept, crate::proofs::whole_day::Laws::notes_written), unfolding(crate::specs::Notes::notes_after, section::specs::Outcome::if_done))]
pub fn note_day(c: Settings, steps: &[u8], count: usize, notes: &mut [u8]) -> Outcome
    ensures value { result ≡ day_outcome c steps.now count (length notes.old) }
    ensures notes_after { notes.new ≡ notes_after c steps.now count notes.old }
{
    let noted = day_outcome(c, steps, count, notes.len())?;
    judge_steps::<Notes>(section::fresh(c), steps, count, false, notes);
    Ok(noted)
}
