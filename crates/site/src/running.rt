// Where a step is taken: its post, and what the two tracks do.
ghost use Rattle.std.specs.Prelude.{◌≡◌};
ghost use Rattle.section.specs.Step.{post_of};
ghost use Rattle.site.specs.Running.{running_of, on_vns, site_with};

use crate::conditions::is_settled;
use rules::Site;
use section::{Post, Step, Track, TrackStep, Walk};

// A track's running direction (true for CVT) and its walk.
#[derive(Clone, Copy)]
pub struct Running {
    pub cvt: bool,
    pub walk: Walk,
}

// No `From`: it is no plainer, since `from_gives` and a clause would say the one equation of this contract twice.
pub fn running_of(t: &Track) -> Running
    ensures { result ≡ running_of t.now }
{
    Running {
        cvt: t.cvt,
        walk: t.walk,
    }
}

#[tactic(auto, unfolding(section::specs::Step::post_of))]
pub fn post_of(x: Step) -> u8
    ensures { result ≡ post_of x }
{
    match x {
        Step::Order { post }
        | Step::Set { post }
        | Step::Announce { post }
        | Step::Acknowledge { post }
        | Step::Start { post, .. }
        | Step::Pass { post, .. }
        | Step::Leave { post, .. }
        | Step::MeasuresOn { post }
        | Step::MeasuresOff { post }
        | Step::FaultOn { post, .. }
        | Step::FaultOff { post, .. }
        | Step::Release { post, .. }
        | Step::Key { post }
        | Step::Caution { post, .. } => post,
    }
}

// The place of a step's post among its track's.
pub fn place_of(x: TrackStep) -> usize
    ensures { result ≡ post_of x.step }
{
    post_of(x.step) as usize
}

// A track with that running direction and walk is settled on VNS.
pub fn settled_on_vns(running: Running) -> bool
    ensures { result ≡ on_vns running }
{
    is_settled(running.walk) && !running.cvt
}

// The site of a step at a post with that record, on a track that runs so.
pub fn site(track: bool, post: u8, own: Post, running: Running) -> Site
    ensures { result ≡ site_with track post own running }
{
    Site {
        track,
        post,
        cvt: running.cvt,
        walk: running.walk,
        own,
    }
}
