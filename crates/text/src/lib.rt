// Text written into a lent buffer.

#![tactic(auto)]

ghost use Rattle.std.specs.Prelude.{◌≡◌, [], ◌∷◌, ◌+◌, ◌≤◌, length};
ghost use Rattle.text.specs.Text.{decimal_digits, decimal, written};
ghost use Rattle.text.specs.Put.{HasRoom, put};
ghost use Rattle.text.specs.Copied.{copied, copied_out};

use section::{CallRefusal, Outcome, check};

// A text in a lent buffer, from its front on. What is put makes it longer, and the bytes of the buffer behind it stay as they were.
#[derive(Drop)]
pub struct Text<'a> {
    buffer: &'a mut [u8],
    length: usize,
}

impl<'a> Text<'a> {
    // No text yet.
    pub fn new(buffer: &'a mut [u8]) -> Text<'a>
        ensures { result ≡ record { buffer = buffer.entry; length = 0 } }
    {
        Text { buffer, length: 0 }
    }

    pub fn length(&self) -> usize
        ensures { result ≡ self.now.length }
    {
        self.length
    }

    #[tactic(auto, using(crate::proofs::Laws::one_byte), unfolding(crate::specs::Put::put))]
    pub fn put_byte(&mut self, byte: u8)
        requires { HasRoom self.old 1 }
        ensures { self.new ≡ put self.old (byte ∷ []) }
    {
        self.buffer[self.length] = byte;
        self.length += 1;
    }

    #[tactic(auto, using(crate::proofs::Laws::part_filled), unfolding(crate::specs::Put::put))]
    pub fn put_text(&mut self, text: &[u8])
        requires { HasRoom self.old (length text.now) }
        ensures { self.new ≡ put self.old text.now }
    {
        let end = self.length + text.len();
        self.buffer[self.length..end].copy_from_slice(text);
        self.length = end;
    }

    // Puts a number of at most so many digits.
    #[tactic(auto, using(crate::proofs::Put::put_no_digits, crate::proofs::Put::put_twice, crate::proofs::Put::put_length, crate::proofs::Put::same_buffer, crate::proofs::Laws::small, crate::proofs::Laws::large, crate::proofs::Laws::digits_length))]
    fn put_digits(&mut self, most: usize, x: usize)
        requires { HasRoom self.old most }
        ensures { self.new ≡ put self.old (decimal_digits most x) }
    {
        if most == 0 {
            return;
        }
        if x < 10 {
            self.put_byte(b'0' + x as u8);
            return;
        }
        self.put_digits(most - 1, x / 10);
        self.put_byte(b'0' + (x % 10) as u8);
    }

    // Puts a number in decimal, or the last five digits of a longer one, where std's `Display` and `itoa` write all of them.
    #[tactic(auto, unfolding(crate::specs::Text::decimal))]
    pub fn put_decimal(&mut self, x: usize)
        requires { HasRoom self.old 5 }
        ensures { self.new ≡ put self.old (decimal x) }
    {
        self.put_digits(5, x);
    }
}

// Copies a text to the front of the buffer, if it is long enough: how many bytes it has, or 5.
#[tactic(auto, using(crate::proofs::Laws::at_front), unfolding(crate::specs::Put::put, crate::specs::Copied::copied, crate::specs::Copied::copied_out, section::specs::Outcome::if_done))]
pub fn copy_out(text: &[u8], buffer: &mut [u8]) -> Outcome
    ensures value { result ≡ copied text.now buffer.old }
    ensures buffer_after { buffer.new ≡ copied_out text.now buffer.old }
{
    check(text.len() <= buffer.len(), CallRefusal::NoRoom)?;
    let mut copy = Text::new(buffer);
    copy.put_text(text);
    Ok(copy.length())
}
