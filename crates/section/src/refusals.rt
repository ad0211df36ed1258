// A check with its refusal, and the paper's figures of refusals.
ghost use Rattle.std.specs.Prelude.{true, false, ◌≡◌, ℕ, MatchResult};
ghost use Rattle.section.specs.Refusal.{figure, call_figure, index_of};

use crate::{CallRefusal, Refusal};

// A check of a row, or of a call: what must hold, and the refusal where it does not.
pub fn check<E: Drop>(holds: bool, refusal: E) -> Result<(), E>
    ensures { MatchResult result (λ _. holds ≡ true) (λ e. (e ≡ refusal) × (holds ≡ false)) }
{
    if holds { Ok(()) } else { Err(refusal) }
}

// What tells a refusal: its name, or its figure alone, of which any number is taken. The index is the one beside the figure, 0 where it has none.
pub trait HasFigure: Copy {
    ghost figure: { Self → ℕ };

    ghost index: { Self → ℕ };

    fn figure(self) -> u8
        ensures { result ≡ figure self };

    fn index(self) -> usize
        ensures { result ≡ index self };
}

impl From<Refusal> for u8 {
    ghost from_gives = { λ refusal number. number ≡ figure refusal };

    #[tactic(auto, unfolding(crate::specs::Refusal::figure))]
    fn from(refusal: Refusal) -> u8 {
        match refusal {
            Refusal::Malformed => 4,
            Refusal::OutOfRange => 6,
            Refusal::ReversalUnderWay => 11,
            Refusal::NoSuchPart => 12,
            Refusal::Occupied => 13,
            Refusal::OtherNotOnVns => 14,
            Refusal::NotItsTurn => 15,
            Refusal::MeasuresNeeded => 16,
            Refusal::WrongTrain => 17,
            Refusal::FaultWithoutMark => 18,
            Refusal::DeviceLocked => 19,
            Refusal::SealsUsedUp => 20,
            Refusal::AlreadySo => 21,
            Refusal::CautionFormNeeded => 22,
        }
    }
}

impl From<CallRefusal> for u8 {
    ghost from_gives = { λ refusal number. number ≡ call_figure refusal };

    #[tactic(auto, unfolding(crate::specs::Refusal::call_figure))]
    fn from(refusal: CallRefusal) -> u8 {
        match refusal {
            CallRefusal::WrongLength => 1,
            CallRefusal::WrongTrailer => 2,
            CallRefusal::WrongSettings => 3,
            CallRefusal::MalformedStep(_) => 4,
            CallRefusal::NoRoom => 5,
            CallRefusal::StateOutOfRange => 6,
        }
    }
}

impl CallRefusal {
    // The index of the first malformed step, for 4; else 0.
    #[tactic(auto, unfolding(crate::specs::Refusal::index_of))]
    pub fn index(self) -> usize
        ensures { result ≡ index_of self }
    {
        match self {
            CallRefusal::MalformedStep(index) => index,
            _ => 0,
        }
    }
}

impl HasFigure for Refusal {
    ghost figure = { figure };

    ghost index = { λ _. 0 };

    fn figure(self) -> u8 {
        u8::from(self)
    }

    fn index(self) -> usize {
        0
    }
}

impl HasFigure for CallRefusal {
    ghost figure = { call_figure };

    ghost index = { index_of };

    fn figure(self) -> u8 {
        u8::from(self)
    }

    fn index(self) -> usize {
        CallRefusal::index(self)
    }
}

impl HasFigure for u8 {
    ghost figure = { λ figure. figure };

    ghost index = { λ _. 0 };

    fn figure(self) -> u8 {
        self
    }

    fn index(self) -> usize {
        0
    }
}
