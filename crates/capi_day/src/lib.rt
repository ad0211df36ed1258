// The C interface to the steps of a day: for the comparison with a second implementation and for its benchmark. `capi_day_c` exports it.
// It is not stable: names and the notes' layout may change with any delivery.

#![tactic(auto)]

ghost use Rattle.std.specs.Prelude.{◌≡◌, length};
ghost use Rattle.packed.specs.Packed.{packed_outcome};
ghost use Rattle.capi_day.specs.Day.{day_answer, day_notes};

use judging_in_place::whole_day::note_day;
use packed::{lent_settings_well_formed, packed_outcome};
use section::{CallRefusal, Outcome, check};

// Notes the steps of a day, whose settings come in a day file's bytes.
#[tactic(auto, using(packed::proofs::Settings::settings_lent), unfolding(crate::specs::Day::day_answer, crate::specs::Day::day_notes))]
fn note_lent(settings: &[u8], steps: &[u8], buffer: &mut [u8]) -> Outcome
    ensures value { result ≡ day_answer settings.now steps.now (length buffer.old) }
    ensures buffer_after { buffer.new ≡ day_notes settings.now steps.now buffer.old }
{
    check(
        lent_settings_well_formed(settings),
        CallRefusal::StateOutOfRange,
    )?;
    let c = layout::settings_of(settings);
    note_day(c, steps, layout::step_count(steps), buffer)
}

// Judges the steps, offered one after another from fresh, and writes the note of each, from the buffer's front on. The day is judged in place, as the
// listing judges it. How many steps are noted, or the refusal and its index.
pub fn bsr_day(settings: &[u8], steps: &[u8], buffer: &mut [u8]) -> u64
    ensures value { result ≡ packed_outcome (day_answer settings.now steps.now (length buffer.old)) }
    ensures buffer_after { buffer.new ≡ day_notes settings.now steps.now buffer.old }
{
    packed_outcome(note_lent(settings, steps, buffer))
}
