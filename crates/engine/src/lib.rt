// The engine: a step offered to a section is judged or only tried, and a post's indications are shown.

#![tactic(auto)]

mod previews;

ghost use Rattle.std.specs.Prelude.{◌≡◌};
ghost use Rattle.rules.specs.Judge.{judge};

pub use indications::indications;
use judging_in_place::judge_in_place;
pub use previews::{Previewed, preview};
use section::{Answer, Refusal, Section};

// Judges bytes offered to a section: 6, then 4, then the table. A refusal returns the section as it came.
#[tactic(auto, using(section::proofs::Told::told_false, section::proofs::Told::told_true, rules::proofs::RangeLaw::judged_in_range), unfolding(rules::specs::Judge::judge))]
pub fn judge(s: Section, bytes: &[u8]) -> Answer
    ensures { result ≡ judge s bytes.now }
{
    let c = s.settings;
    // Before the ranges are tested: filled after a test, the array would first be cleared, with memset, where a loop calls this.
    let mut tracks = [s.a, s.b];
    let verdict = if !ranges::in_range(s) {
        Err(Refusal::OutOfRange)
    } else {
        judge_in_place(c, false, bytes, &mut tracks)
    };
    Answer {
        verdict,
        section: Section {
            settings: c,
            a: tracks[0],
            b: tracks[1],
        },
    }
}
