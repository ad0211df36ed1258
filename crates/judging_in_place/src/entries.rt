// What is kept of the steps that are judged, an entry for each: their answers, or their notes.
ghost use Rattle.std.specs.Prelude.{◌≡◌, ◌+◌, ◌*◌, ◌≤◌, length};
ghost use Rattle.section.specs.Words.{track_letter};
ghost use Rattle.text.specs.Text.{written};
ghost use Rattle.notes.specs.Note.{note_length, note_with};
ghost use Rattle.judging_in_place.specs.Entries.{Entry, AsLong, answers, answers_as_long, notes, notes_as_long};
ghost use Rattle.judging_in_place.specs.Tracks.{track_at};

use notes::{ANSWER_LENGTH, NOTE_LENGTH, put_answer, put_note};
use section::words::letter;
use section::{Track, Verdict};

pub trait Entries {
    ghost entry: { Entry };

    // Writes the entry of step i, which left these tracks.
    fn put(buffer: &mut [u8], i: usize, verdict: Verdict, tracks: &[Track; 2])
        requires { entry.long * i + entry.long ≤ length buffer.old }
        ensures { buffer.new ≡ written buffer.old (i * entry.long) (entry.bytes verdict (track_letter (track_at tracks.now 0)) (track_letter (track_at tracks.now 1))) };

    ghost as_long: { AsLong entry };
}

#[derive(Clone, Copy)]
pub struct Answers;

impl Entries for Answers {
    ghost entry = { answers };

    ghost as_long = { answers_as_long };

    fn put(buffer: &mut [u8], i: usize, verdict: Verdict, _tracks: &[Track; 2]) {
        put_answer(buffer, i * ANSWER_LENGTH, verdict);
    }
}

#[derive(Clone, Copy)]
pub struct Notes;

impl Entries for Notes {
    ghost entry = { notes };

    ghost as_long = { notes_as_long };

    fn put(buffer: &mut [u8], i: usize, verdict: Verdict, tracks: &[Track; 2]) {
        put_note_of(buffer, i * NOTE_LENGTH, verdict, &tracks[0], &tracks[1]);
    }
}

// Writes the note of a verdict, with the letters of tracks A and B after the step.
#[tactic(auto, unfolding(section::specs::Words::track_letter))]
pub fn put_note_of(notes: &mut [u8], at: usize, verdict: Verdict, a: &Track, b: &Track)
    requires { at + note_length ≤ length notes.old }
    ensures { notes.new ≡ written notes.old at (note_with verdict (track_letter a.now) (track_letter b.now)) }
{
    put_note(
        notes,
        at,
        verdict,
        letter(a.walk, a.cvt),
        letter(b.walk, b.cvt),
    );
}
