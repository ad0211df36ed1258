// An answer in words: one line, at a buffer's front.
ghost use Rattle.std.specs.Prelude.{◌≡◌, ◌+◌, ◌≤◌, length};
ghost use Rattle.text.specs.Put.{HasRoom, put};
ghost use Rattle.text.specs.Text.{written};
ghost use Rattle.registers.specs.Words.{line, offset_line, difference_line, malformed_line, answer_line_by, answer_room};

use crate::{Book, HasNumber, Mismatch};
use text::Text;

// Room for the longest line.
pub const ANSWER_ROOM: usize = 64;

const ZERO_OFFSET: u8 = 120;

// Puts a phrase, a number and the end of the line.
#[tactic(auto, using(text::proofs::Put::texts), unfolding(crate::specs::Words::line))]
fn put_line(text: &mut Text, phrase: &[u8], x: usize)
    requires { HasRoom text.old (length phrase.now + 6) }
    ensures { text.new ≡ put text.old (line phrase.now x) }
{
    text.put_text(phrase);
    text.put_decimal(x);
    text.put_byte(b'\n');
}

#[tactic(auto, unfolding(crate::specs::Words::offset_line))]
fn put_offset(text: &mut Text, offset: u8)
    requires { HasRoom text.old answer_room }
    ensures { text.new ≡ put text.old (offset_line offset) }
{
    if offset < ZERO_OFFSET {
        put_line(
            text,
            b"the books match, offset -",
            (ZERO_OFFSET - offset) as usize,
        );
    } else {
        put_line(
            text,
            b"the books match, offset ",
            (offset - ZERO_OFFSET) as usize,
        );
    }
}

// Not one function with `put_malformed`, which is no plainer: a common one would be handed both phrases, and each has its own definition.
#[tactic(auto, unfolding(crate::specs::Words::difference_line))]
fn put_difference(text: &mut Text, sent_by: u8, index: usize)
    requires { HasRoom text.old answer_room }
    ensures { text.new ≡ put text.old (difference_line sent_by index) }
{
    if sent_by == Book::First as u8 {
        put_line(
            text,
            b"the lists differ, sent by the first book, index ",
            index,
        );
    } else {
        put_line(
            text,
            b"the lists differ, sent by the second book, index ",
            index,
        );
    }
}

fn put_malformed(text: &mut Text, book: u8, index: usize)
    requires { HasRoom text.old answer_room }
    ensures { text.new ≡ put text.old (malformed_line book index) }
{
    if book == Book::First as u8 {
        put_line(text, b"refused 24, first book, index ", index);
    } else {
        put_line(text, b"refused 24, second book, index ", index);
    }
}

// Puts the line of an answer.
#[tactic(auto, unfolding(crate::specs::Words::answer_line_by))]
fn put_words<B: HasNumber>(text: &mut Text, answer: Result<Option<u8>, Mismatch<B>>)
    requires { HasRoom text.old answer_room }
    ensures { text.new ≡ put text.old (answer_line_by B.number answer) }
{
    match answer {
        Ok(Some(offset)) => put_offset(text, offset),
        Ok(None) => text.put_text(b"the books match, no offset\n"),
        Err(Mismatch::Differs { sent_by, index }) => put_difference(text, sent_by.number(), index),
        Err(Mismatch::Malformed { book, index }) => put_malformed(text, book.number(), index),
    }
}

// Writes the line of an answer at the buffer's front, and returns its length. A number that is not the first book's stands for the second.
#[tactic(auto, unfolding(text::specs::Put::put))]
pub fn put_answer<B: HasNumber>(buffer: &mut [u8], answer: Result<Option<u8>, Mismatch<B>>) -> usize
    requires { answer_room ≤ length buffer.old }
    ensures value { result ≡ length (answer_line_by B.number answer) }
    ensures buffer_after { buffer.new ≡ written buffer.old 0 (answer_line_by B.number answer) }
{
    let mut text = Text::new(buffer);
    put_words(&mut text, answer);
    text.length()
}
