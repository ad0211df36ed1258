// The lines of a day's steps: each with its index, 0 or the refusal, what is said, and the letters of the tracks.
ghost use Rattle.std.specs.Prelude.{◌≡◌, ◌*◌, ◌≤◌, length};
ghost use Rattle.text.specs.Put.{HasRoom, put};
ghost use Rattle.lines.specs.Lines.{word, verdict_fields, step_line_room};
ghost use Rattle.notes.specs.Note.{note_length};
ghost use Rattle.lines.specs.Noted.{noted_line, noted_lines};

use crate::put_number;
use notes::NOTE_LENGTH;
use section::Said;
use text::Text;

// Puts what is said.
#[tactic(auto, unfolding(crate::specs::Lines::word))]
fn put_said(text: &mut Text, said: Said)
    requires { HasRoom text.old 4 }
    ensures { text.new ≡ put text.old (word said) }
{
    match said {
        Said::Nothing => text.put_text(b"-"),
        Said::Cvt => text.put_text(b"CVT"),
        Said::Cvtz => text.put_text(b"CVTz"),
        Said::Vns => text.put_text(b"VNS"),
        Said::Vnsz => text.put_text(b"VNSz"),
    }
}

// Puts 0 or the refusal, and what is said.
#[tactic(auto, using(text::proofs::Put::texts), unfolding(crate::specs::Lines::verdict_fields))]
fn put_verdict(text: &mut Text, refusal: u8, said: Said)
    requires { HasRoom text.old 10 }
    ensures { text.new ≡ put text.old (verdict_fields refusal said) }
{
    put_number(text, refusal as usize, b' ');
    put_said(text, said);
}

// Puts the line of a step of which that was noted.
#[tactic(auto, using(text::proofs::Put::texts, crate::proofs::Puts::verdict_length), unfolding(crate::specs::Noted::noted_line, crate::specs::Lines::fields))]
fn put_noted(text: &mut Text, index: usize, note: &[u8])
    requires { HasRoom text.old step_line_room × (note_length ≤ length note.now) }
    ensures { text.new ≡ put text.old (noted_line index note.now) }
{
    put_number(text, index, b' ');
    put_verdict(text, note[0], Said::from(note[1]));
    text.put_text(&[b' ', note[2], b' ', note[3], b'\n']);
}

// Puts the lines of all steps, from their notes.
#[tactic(auto, using(text::proofs::Put::first_none), unfolding(crate::specs::Noted::noted_lines))]
pub fn put_noted_lines(text: &mut Text, notes: &[u8], count: usize)
    requires { HasRoom text.old (step_line_room * count) × (note_length * count ≤ length notes.now) }
    ensures { text.new ≡ put text.old (noted_lines notes.now count) }
{
    for i in 0..count {
        let start = i * NOTE_LENGTH;
        put_noted(text, i, &notes[start..start + NOTE_LENGTH]);
    }
}
