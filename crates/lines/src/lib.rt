// A number in a line; the line of a refused file and the header of a day.

#![tactic(auto)]

pub mod lamps;
pub mod listing;
pub mod panel;

ghost use Rattle.std.specs.Prelude.{◌≡◌, [], ◌∷◌, ◌++◌, ◌+◌, length};
ghost use Rattle.text.specs.Put.{HasRoom, put};
ghost use Rattle.text.specs.Text.{decimal};
ghost use Rattle.lines.specs.Lines.{refused_line, header, refused_room, header_room};

use text::Text;

// Puts a number and the byte that follows it.
#[tactic(auto, using(text::proofs::Put::texts))]
pub fn put_number(text: &mut Text, x: usize, end: u8)
    requires { HasRoom text.old 6 }
    ensures { text.new ≡ put text.old (decimal x ++ (end ∷ [])) }
{
    text.put_decimal(x);
    text.put_byte(end);
}

// Puts a number's name, the number and the byte that follows it.
#[tactic(auto, using(text::proofs::Put::texts))]
fn put_named(text: &mut Text, name: &[u8], x: usize, end: u8)
    requires { HasRoom text.old (length name.now + 6) }
    ensures { text.new ≡ put text.old (name.now ++ (decimal x ++ (end ∷ []))) }
{
    text.put_text(name);
    put_number(text, x, end);
}

// Puts the line of a refused file.
#[tactic(auto, using(text::proofs::Put::texts), unfolding(crate::specs::Lines::refused_line))]
pub fn put_refused(text: &mut Text, number: u8, index: usize)
    requires { HasRoom text.old refused_room }
    ensures { text.new ≡ put text.old (refused_line number index) }
{
    put_named(text, b"refused ", number as usize, b' ');
    put_number(text, index, b'\n');
}

// Puts the header of a day.
#[tactic(auto, using(text::proofs::Put::texts), unfolding(crate::specs::Lines::header))]
pub fn put_header(text: &mut Text, n: u8, count: usize)
    requires { HasRoom text.old header_room }
    ensures { text.new ≡ put text.old (header n count) }
{
    put_named(text, b"posts ", n as usize, b' ');
    put_named(text, b"steps ", count, b'\n');
}
