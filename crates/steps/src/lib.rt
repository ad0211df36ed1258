// A step from its eight bytes.

#![tactic(auto)]

pub mod well_formed;

ghost use Rattle.std.specs.Prelude.{true, ◌≡◌, length};
ghost use Rattle.section.specs.Numbers.{step_length};
ghost use Rattle.section.specs.Step.{well_formed, fields, step_of, step_said, decoded};

use crate::well_formed::is_well_formed;
use section::{Fault, Step, TrackStep, kinds, le16_of};

#[tactic(auto, unfolding(section::specs::Step::step_of))]
fn step_of(kind: u8, post: u8, fault: u8, number: u16) -> Step
    ensures { result ≡ step_of (fields kind post fault number) }
{
    match kind {
        kinds::ORDER => Step::Order { post },
        kinds::SET => Step::Set { post },
        kinds::ANNOUNCE => Step::Announce { post },
        kinds::ACKNOWLEDGE => Step::Acknowledge { post },
        kinds::START => Step::Start { post, number },
        kinds::PASS => Step::Pass { post, number },
        kinds::LEAVE => Step::Leave { post, number },
        kinds::MEASURES_ON => Step::MeasuresOn { post },
        kinds::MEASURES_OFF => Step::MeasuresOff { post },
        kinds::FAULT_ON => Step::FaultOn {
            post,
            fault: Fault::from(fault),
        },
        kinds::FAULT_OFF => Step::FaultOff {
            post,
            fault: Fault::from(fault),
        },
        kinds::RELEASE => Step::Release { post, number },
        kinds::KEY => Step::Key { post },
        _ => Step::Caution { post, number },
    }
}

#[tactic(auto, unfolding(section::specs::Step::step_said))]
fn step_said(s: &[u8]) -> TrackStep
    requires { length s.now ≡ step_length }
    ensures { result ≡ step_said s.now }
{
    TrackStep {
        track: s[1] == 1,
        step: step_of(s[0], s[2], s[3], le16_of(s[4], s[5])),
    }
}

// The step that the bytes say on a line of n posts.
#[tactic(auto, using(section::proofs::StepLaws::well_length), unfolding(section::specs::Step::decoded))]
pub fn decode(n: u8, s: &[u8]) -> Option<TrackStep>
    ensures { result ≡ decoded n s.now }
{
    if is_well_formed(n, s) {
        Some(step_said(s))
    } else {
        None
    }
}

// The same, where the bytes may be known to say a step: they are not tested then. (A closure in place of `known` would be no plainer: the walk over
// steps would have to require of it at each step what is required here once.)
#[tactic(auto, using(section::proofs::StepLaws::well_length), unfolding(section::specs::Step::decoded))]
pub fn decode_known(known: bool, n: u8, s: &[u8]) -> Option<TrackStep>
    requires { known ≡ true → well_formed n s.now ≡ true }
    ensures { result ≡ decoded n s.now }
{
    if known {
        Some(step_said(s))
    } else {
        decode(n, s)
    }
}
