// The paper's number and the values of an answer, as they are told over C.
ghost use Rattle.std.specs.Prelude.{◌≡◌};
ghost use Rattle.registers.specs.Answers.{refusal_number, finding, which_by, place};

use crate::{HasNumber, Mismatch};

pub const MALFORMED_RECORD: u8 = 24;

// The refusal, 0 for none; what is found where nothing is refused, 0 an offset, 1 no offset, 2 a difference; the offset, with 120 added, the pair or
// the book; the index of a difference or of a malformed record.
#[derive(Clone, Copy, Debug, PartialEq, Eq)]
pub struct Numbers {
    pub refusal: u8,
    pub finding: u8,
    pub which: u8,
    pub place: usize,
}

impl<B: HasNumber> From<Result<Option<u8>, Mismatch<B>>> for Numbers {
    ghost from_gives = { λ answer n. (n.refusal ≡ refusal_number answer) × (n.finding ≡ finding answer) × (n.which ≡ which_by B.number answer)
        × (n.place ≡ place answer) };

    #[tactic(auto, unfolding(crate::specs::Answers::refusal_number, crate::specs::Answers::finding, crate::specs::Answers::which_by, crate::specs::Answers::place))]
    fn from(answer: Result<Option<u8>, Mismatch<B>>) -> Numbers {
        match answer {
            Ok(Some(offset)) => Numbers {
                refusal: 0,
                finding: 0,
                which: offset,
                place: 0,
            },
            Ok(None) => Numbers {
                refusal: 0,
                finding: 1,
                which: 0,
                place: 0,
            },
            Err(Mismatch::Differs { sent_by, index }) => Numbers {
                refusal: 0,
                finding: 2,
                which: sent_by.number(),
                place: index,
            },
            Err(Mismatch::Malformed { book, index }) => Numbers {
                refusal: MALFORMED_RECORD,
                finding: 0,
                which: book.number(),
                place: index,
            },
        }
    }
}
