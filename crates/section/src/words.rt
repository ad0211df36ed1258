// The numbers and letters of an answer, as notes, lines and C functions give them, and the fault of a step's byte.
ghost use Rattle.std.specs.Prelude.{◌≡◌};
ghost use Rattle.section.specs.Step.{fault_of};
ghost use Rattle.section.specs.Refusal.{refusal_by};
ghost use Rattle.section.specs.Words.{said_by, said_number, said_numbered, letter};

use crate::{Fault, HasFigure, Said, Walk};

// The fault that a step's byte names: 1 to 4.
impl From<u8> for Fault {
    ghost from_gives = { λ number fault. fault ≡ fault_of number };

    #[tactic(auto, unfolding(crate::specs::Step::fault_of))]
    fn from(number: u8) -> Fault {
        match number {
            1 => Fault::One,
            2 => Fault::Two,
            3 => Fault::Three,
            _ => Fault::Four,
        }
    }
}

// 0, or the refusal.
#[tactic(auto, unfolding(crate::specs::Refusal::refusal_by))]
pub fn refusal_of<R: HasFigure>(verdict: Result<Said, R>) -> u8
    ensures { result ≡ refusal_by R.figure verdict }
{
    match verdict {
        Ok(_) => 0,
        Err(refusal) => refusal.figure(),
    }
}

#[tactic(auto, unfolding(crate::specs::Words::said_by))]
pub fn said_by<R: HasFigure>(verdict: Result<Said, R>) -> Said
    ensures { result ≡ said_by verdict }
{
    match verdict {
        Ok(said) => said,
        Err(_) => Said::Nothing,
    }
}

impl From<Said> for u8 {
    ghost from_gives = { λ said number. number ≡ said_number said };

    #[tactic(auto, unfolding(crate::specs::Words::said_number))]
    fn from(said: Said) -> u8 {
        match said {
            Said::Nothing => 0,
            Said::Cvt => 1,
            Said::Cvtz => 2,
            Said::Vns => 3,
            Said::Vnsz => 4,
        }
    }
}

// What a number stands for.
impl From<u8> for Said {
    ghost from_gives = { λ number said. said ≡ said_numbered number };

    #[tactic(auto, unfolding(crate::specs::Words::said_numbered))]
    fn from(number: u8) -> Said {
        match number {
            1 => Said::Cvt,
            2 => Said::Cvtz,
            3 => Said::Vns,
            4 => Said::Vnsz,
            _ => Said::Nothing,
        }
    }
}

// The letter of a track with that walk and running direction.
#[tactic(auto, unfolding(crate::specs::Words::letter))]
pub fn letter(walk: Walk, cvt: bool) -> u8
    ensures { result ≡ letter walk cvt }
{
    match walk {
        Walk::Settled => { if cvt { b'C' } else { b'V' } }
        Walk::Turn(_, _) => { if cvt { b'v' } else { b'c' } }
    }
}
