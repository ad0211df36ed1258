// A step tried first: its answer and every indication after it, and the section as it came.
ghost use Rattle.std.specs.Prelude.{◌≡◌, Err, replicate};
ghost use Rattle.section.specs.declared.Refusal.TheVariants.{OutOfRange};
ghost use Rattle.section.specs.Numbers.{most_posts};
ghost use Rattle.rules.specs.Indications.{dark};
ghost use Rattle.engine.specs.Preview.{preview};

use crate::judge;
use indications::track::{PostsShown, all_posts_dark, track_indications};
use section::words::refusal_of;
use section::{Refusal, Section, Verdict};

// The answer, what the posts of both tracks show after the step, and the section that came.
#[derive(Clone, Copy)]
pub struct Previewed {
    pub verdict: Verdict,
    pub a: PostsShown,
    pub b: PostsShown,
    pub section: Section,
}

// A state that gives 6 shows nothing.
fn out_of_range(state: Section) -> Previewed
    ensures { result ≡ record { verdict = Err OutOfRange; a = replicate most_posts dark; b = replicate most_posts dark; section = state } }
{
    Previewed {
        verdict: Err(Refusal::OutOfRange),
        a: all_posts_dark(),
        b: all_posts_dark(),
        section: state,
    }
}

// Tries a step: what judging it would answer and show. The section comes back as it was. Judging tests the ranges, and only a state out of them
// gives 6.
#[tactic(auto, using(crate::proofs::PreviewLaws::out_of_range_is, crate::proofs::PreviewLaws::answered_6, crate::proofs::PreviewLaws::after_in_range, crate::proofs::PreviewLaws::tried_is))]
pub fn preview(s: Section, bytes: &[u8]) -> Previewed
    ensures { result ≡ preview s bytes.now }
{
    let answer = judge(s, bytes);
    if refusal_of(answer.verdict) == u8::from(Refusal::OutOfRange) {
        return out_of_range(s);
    }
    Previewed {
        verdict: answer.verdict,
        a: track_indications(answer.section, 0),
        b: track_indications(answer.section, 1),
        section: s,
    }
}
