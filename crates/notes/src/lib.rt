// What is kept of a step that was judged: its answer, or its note, which is the answer and the letters of tracks A and B after it.

#![tactic(auto)]

ghost use Rattle.std.specs.Prelude.{◌≡◌, ◌+◌, ◌≤◌, length};
ghost use Rattle.text.specs.Text.{written};
ghost use Rattle.notes.specs.Note.{answer_length, answer_by, note_length, note_by};

use section::words::{refusal_of, said_by};
use section::{HasFigure, Said};

pub const ANSWER_LENGTH: usize = 2;

pub const NOTE_LENGTH: usize = 4;

// Writes the answer to a step: 0 or the refusal, then the number of what is said. It stands at its step's place, not behind what was put before, so
// that the buffer is no `Text`.
#[tactic(auto, using(crate::proofs::Laws::two_stored), unfolding(crate::specs::Note::answer_by))]
pub fn put_answer<R: HasFigure>(answers: &mut [u8], at: usize, verdict: Result<Said, R>)
    requires { at + answer_length ≤ length answers.old }
    ensures { answers.new ≡ written answers.old at (answer_by R.figure verdict) }
{
    answers[at] = refusal_of(verdict);
    answers[at + 1] = u8::from(said_by(verdict));
}

// Writes the note of a step.
#[tactic(auto, using(crate::proofs::Laws::letters_stored))]
pub fn put_note<R: HasFigure>(notes: &mut [u8], at: usize, verdict: Result<Said, R>, a: u8, b: u8)
    requires { at + note_length ≤ length notes.old }
    ensures { notes.new ≡ written notes.old at (note_by R.figure verdict a b) }
{
    put_answer(notes, at, verdict);
    notes[at + 2] = a;
    notes[at + 3] = b;
}
