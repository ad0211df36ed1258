// The C interface to the steps of a day, each offered singly to the engine: for the comparison and the benchmark of `engine::judge`.
// It is not stable: names and the notes' layout may change with any delivery.

#![tactic(auto)]

ghost use Rattle.std.specs.Prelude.{◌≡◌, ◌*◌, ◌≤◌, length};
ghost use Rattle.section.specs.Numbers.{step_length};
ghost use Rattle.text.specs.Text.{written};
ghost use Rattle.notes.specs.Note.{note_length};
ghost use Rattle.judging_in_place.specs.Notes.{notes_of};
ghost use Rattle.packed.specs.Packed.{packed_outcome};
ghost use Rattle.capi_day.specs.Day.{day_answer, day_notes};

use judging_in_place::put_note_of;
use judging_in_place::whole_day::day_outcome;
use layout::step_at;
use notes::NOTE_LENGTH;
use packed::{lent_settings_well_formed, packed_outcome};
use section::{CallRefusal, Outcome, Settings, check};

// Notes the steps of a day, each offered singly to the engine, on the section that the one before left.
#[tactic(auto, using(text::proofs::Laws::none_put, judging_in_place::proofs::Laws::step_after, judging_in_place::proofs::Laws::answered, judging_in_place::specs::Entries::notes_as_long, judging_in_place::proofs::Laws::entry_put, judging_in_place::proofs::whole_day::Laws::notes_kept), unfolding(judging_in_place::specs::Offered::section_before, judging_in_place::specs::Entries::entry_of, judging_in_place::specs::Entries::entries_of))]
fn note_singly(c: Settings, steps: &[u8], count: usize, notes: &mut [u8])
    requires { (step_length * count ≤ length steps.now) × (note_length * count ≤ length notes.old) }
    ensures { notes.new ≡ written notes.old 0 (notes_of c steps.now count) }
{
    let mut state = section::fresh(c);
    for i in 0..count {
        let answer = engine::judge(state, step_at(steps, i));
        state = answer.section;
        put_note_of(notes, i * NOTE_LENGTH, answer.verdict, &state.a, &state.b);
    }
}

// Notes the steps of a day, whose settings come in a day file's bytes.
#[tactic(auto, using(packed::proofs::Settings::settings_lent, judging_in_place::proofs::whole_day::Laws::day_fits, judging_in_place::proofs::whole_day::Laws::notes_written), unfolding(capi_day::specs::Day::day_answer, capi_day::specs::Day::day_notes, judging_in_place::specs::Notes::notes_after, section::specs::Outcome::if_done))]
fn note_lent(settings: &[u8], steps: &[u8], buffer: &mut [u8]) -> Outcome
    ensures value { result ≡ day_answer settings.now steps.now (length buffer.old) }
    ensures buffer_after { buffer.new ≡ day_notes settings.now steps.now buffer.old }
{
    check(
        lent_settings_well_formed(settings),
        CallRefusal::StateOutOfRange,
    )?;
    let c = layout::settings_of(settings);
    let count = layout::step_count(steps);
    let noted = day_outcome(c, steps, count, buffer.len())?;
    note_singly(c, steps, count, buffer);
    Ok(noted)
}

// What `bsr_day` does, the ranges tested at each step.
// C exports both, each from a library of its own, so that the compiler's choices for one don't change the other's time: they share no body.
#[unsafe(no_mangle)]
pub extern "C" fn bsr_day_singly(settings: &[u8], steps: &[u8], buffer: &mut [u8]) -> u64
    ensures value { result ≡ packed_outcome (day_answer settings.now steps.now (length buffer.old)) }
    ensures buffer_after { buffer.new ≡ day_notes settings.now steps.now buffer.old }
{
    packed_outcome(note_lent(settings, steps, buffer))
}
