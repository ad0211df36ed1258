// A run of steps in one call (document 02, request 4): from any section, steps and a buffer for their answers.

#![tactic(auto)]

ghost use Rattle.std.specs.Prelude.{◌≡◌, length};
ghost use Rattle.run.specs.Run.{outcome_of, run_of, answers_after};

use judging_in_place::{Answers, judge_steps};
use layout::MOST_STEPS;
use notes::ANSWER_LENGTH;
use section::{CallRefusal, Outcome, Section, check};

// What a call answers: how many steps are taken, or the refusal of the call; and the section afterwards.
#[derive(Clone, Copy)]
pub struct RunAnswer {
    pub outcome: Outcome,
    pub section: Section,
}

// What refuses the call, which is tested before the first step is taken; else how many steps there are.
#[tactic(auto, using(section::proofs::Told::told_false, section::proofs::Told::told_true), unfolding(crate::specs::Run::outcome_of, crate::specs::Run::too_much, file_tests::specs::Tests::some_malformed))]
fn outcome_of(s: &Section, steps: &[u8], room: usize) -> Outcome
    ensures { result ≡ outcome_of s.now steps.now room }
{
    check(ranges::in_range(*s), CallRefusal::StateOutOfRange)?;
    let count = layout::step_count(steps);
    let first = file_tests::first_malformed(s.settings.posts, steps);
    check(count <= first, CallRefusal::MalformedStep(first))?;
    check(
        count <= MOST_STEPS && ANSWER_LENGTH * count <= room,
        CallRefusal::NoRoom,
    )?;
    Ok(count)
}

// Offers the steps one after another and writes the answer to each, from the buffer's front on. A refused call leaves section and buffer.
#[tactic(auto, using(crate::proofs::Outcomes::steps_there, crate::proofs::Outcomes::answers_fit), unfolding(crate::specs::Run::run_of, crate::specs::Run::answers_after, section::specs::Outcome::if_done))]
pub fn run(s: Section, steps: &[u8], answers: &mut [u8]) -> RunAnswer
    ensures value { result ≡ run_of s steps.now (length answers.old) }
    ensures answers_after { answers.new ≡ answers_after s steps.now answers.old }
{
    let outcome = outcome_of(&s, steps, answers.len());
    let section = match outcome {
        Ok(count) => judge_steps::<Answers>(s, steps, count, true, answers),
        Err(_) => s,
    };
    RunAnswer { outcome, section }
}
