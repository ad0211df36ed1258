// A step judged in the tracks of its section, which stand side by side, A before B.
ghost use Rattle.std.specs.Prelude.{true, ◌≡◌};
ghost use Rattle.section.specs.Range.{in_range};
ghost use Rattle.section.specs.Step.{well_formed};
ghost use Rattle.rules.specs.Judge.{judge_in_range};
ghost use Rattle.rules.specs.Line.{line_of};
ghost use Rattle.judging_in_place.specs.Tracks.{section_of, answer_in};

use judging::on_track::judge_on_track;
use rules::Line;
use section::{Refusal, Settings, Track, Verdict};
use site::line::line_of;
use site::running::running_of;

// Judges the step that the bytes say, in the tracks of a section with those settings: 4, or the table. Judging keeps the ranges, so they are not
// tested; nor is a step that is known to be well formed.
pub fn judge_in_place(c: Settings, known: bool, bytes: &[u8], tracks: &mut [Track; 2]) -> Verdict
    requires ranges { in_range (section_of c tracks.old) ≡ true }
    requires well { known ≡ true → well_formed c.posts bytes.now ≡ true }
    ensures { answer_in (section_of c tracks.new) result ≡ judge_in_range (section_of c tracks.old) bytes.now }
{
    judge_on_line(c, line_of(c), known, bytes, tracks)
}

// The same on the line of those settings, which a walk makes once.
#[tactic(auto, using(judging::proofs::at_post::OnTrack::malformed))]
pub(crate) fn judge_on_line(
    c: Settings,
    line: Line,
    known: bool,
    bytes: &[u8],
    tracks: &mut [Track; 2],
) -> Verdict
    requires line_is { line ≡ line_of c }
    requires ranges { in_range (section_of c tracks.old) ≡ true }
    requires well { known ≡ true → well_formed c.posts bytes.now ≡ true }
    ensures { answer_in (section_of c tracks.new) result ≡ judge_in_range (section_of c tracks.old) bytes.now }
{
    let Some(x) = steps::decode_known(known, c.posts, bytes) else {
        return Err(Refusal::Malformed);
    };
    let k = usize::from(x.track);
    let other = running_of(&tracks[1 - k]);
    let own = &mut tracks[k];
    judge_on_track(line, x, own, other)
}
