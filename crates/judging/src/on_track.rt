// A step judged on its own track, whose ranges hold.
ghost use Rattle.std.specs.Prelude.{◌≡◌};
ghost use Rattle.section.specs.Step.{post_of};
ghost use Rattle.rules.specs.Site.{site_on};
ghost use Rattle.site.specs.InItsRanges.{InItsRanges};
ghost use Rattle.judging.specs.OnTrack.{answer_on, judged_on_track};

use crate::at_post::judge_at_post;
use rules::Line;
use section::{Track, TrackStep, Verdict};
use site::running::{Running, place_of, running_of};

// Judges a well-formed step on its own track, in place; of the other only the running direction and the walk count.
#[tactic(auto, using(crate::proofs::at_post::OnTrack::site_in, crate::proofs::on_track::OnTrack::put_back))]
pub fn judge_on_track(c: Line, x: TrackStep, own: &mut Track, other: Running) -> Verdict
    requires { InItsRanges c (site_on x.track (post_of x.step) own.old) }
    ensures { answer_on own.new result ≡ judged_on_track c x own.old other }
{
    let p = place_of(x);
    let running = running_of(own);
    let judged = judge_at_post(
        c,
        x,
        own.posts[p],
        running,
        other,
        &mut own.trains,
        &mut own.last,
    );
    own.posts[p] = judged.own;
    own.cvt = judged.running.cvt;
    own.walk = judged.running.walk;
    judged.verdict
}
