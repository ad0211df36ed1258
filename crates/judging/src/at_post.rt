// A step judged by the table at its site: the checks, then what an accepted step does.
ghost use Rattle.std.specs.Prelude.{◌≡◌};
ghost use Rattle.section.specs.Step.{post_of};
ghost use Rattle.site.specs.InItsRanges.{InItsRanges};
ghost use Rattle.site.specs.Running.{on_vns, site_with};
ghost use Rattle.judging.specs.AtPost.{as_before, judged_at_post, trains_at, last_at};

use crate::table::rule;
use rules::{Line, Site};
use section::{Post, Step, TrackStep, Trains, Verdict};
use site::place::Place;
use site::running;
use site::running::Running;

// The verdict, and what the step leaves beside the trains: its post's record, and its track's running direction and walk.
#[derive(Clone, Copy)]
pub struct PostAnswer {
    pub verdict: Verdict,
    pub own: Post,
    pub running: Running,
}

// A refused step leaves what it found.
fn as_before(verdict: Verdict, e: Site) -> PostAnswer
    ensures { result ≡ as_before verdict e }
{
    PostAnswer {
        verdict,
        own: e.own,
        running: Running {
            cvt: e.cvt,
            walk: e.walk,
        },
    }
}

// Judges a step at its site.
#[tactic(auto, using(crate::proofs::at_post::AtSite::accepted, crate::proofs::at_post::AtSite::refused, crate::proofs::at_post::AtSite::trains_told, crate::proofs::at_post::AtSite::last_told))]
fn judge_at(
    place: Place,
    x: Step,
    other_on_vns: bool,
    trains: &mut Trains,
    last: &mut Trains,
) -> PostAnswer
    requires { InItsRanges place.line place.site }
    ensures value { result ≡ judged_at_post place.line other_on_vns x place.site trains.old last.old }
    ensures trains_after { trains.new ≡ trains_at place.line other_on_vns x place.site trains.old last.old }
    ensures last_after { last.new ≡ last_at place.line other_on_vns x place.site trains.old last.old }
{
    match rule(place, x, other_on_vns, trains, last) {
        Ok(f) => PostAnswer {
            verdict: Ok(f.said),
            own: f.own,
            running: Running {
                cvt: f.cvt,
                walk: f.walk,
            },
        },
        Err(number) => as_before(Err(number), place.site),
    }
}

// Judges a step at its post, which keeps that record, on a track that runs so beside the other.
pub fn judge_at_post(
    c: Line,
    x: TrackStep,
    own: Post,
    running: Running,
    other: Running,
    trains: &mut Trains,
    last: &mut Trains,
) -> PostAnswer
    requires { InItsRanges c (site_with x.track (post_of x.step) own running) }
    ensures value { result ≡ judged_at_post c (on_vns other) x.step (site_with x.track (post_of x.step) own running) trains.old last.old }
    ensures trains_after { trains.new ≡ trains_at c (on_vns other) x.step (site_with x.track (post_of x.step) own running) trains.old last.old }
    ensures last_after { last.new ≡ last_at c (on_vns other) x.step (site_with x.track (post_of x.step) own running) trains.old last.old }
{
    let place = Place {
        line: c,
        site: running::site(x.track, running::post_of(x.step), own, running),
    };
    judge_at(place, x.step, running::settled_on_vns(other), trains, last)
}
