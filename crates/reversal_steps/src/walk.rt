// What the steps of a reversal do: the post's record, the walk, the running direction, and what is said.
ghost use Rattle.std.specs.Prelude.{cond, ◌≡◌};
ghost use Rattle.section.specs.declared.Said.TheVariants.{Cvt, Cvtz, Vns, Vnsz};
ghost use Rattle.rules.specs.Site.{next_post};
ghost use Rattle.rules.specs.Table.{setting};
ghost use Rattle.site.specs.OnTheLine.{HasAhead};
ghost use Rattle.reversal_steps.specs.Walking.{walking};

use rules::{Effect, Site};
use section::{Act, Post, Said, Walk};
use site::place::Place;
use site::ruling::keeping;

// A step of a reversal before its last set.
pub fn walking(e: Site, own: Post, walk: Walk, said: Said) -> Effect
    ensures { result ≡ walking e own walk said }
{
    Effect {
        walk,
        said,
        ..keeping(e, own)
    }
}

// Set, and key after its seal: the last one changes the running direction and gives permission.
pub fn setting(place: Place, own: Post) -> Effect
    ensures { result ≡ setting place.line place.site own }
{
    let site = place.site;
    let turned = own.turned(!site.cvt).marked(false).cautioned(0);
    if place.at_receiving_end() {
        Effect {
            walk: Walk::Settled,
            cvt: !site.cvt,
            ..keeping(site, turned.permitted(true))
        }
    } else {
        walking(
            site,
            turned,
            Walk::Turn(site.post, Act::Announce),
            Said::Nothing,
        )
    }
}

// The post at which the walk goes on after an announcement.
#[tactic(auto, using(crate::proofs::Ahead::above_zero, crate::proofs::Ahead::next_is))]
pub fn next_post(place: Place) -> u8
    requires { HasAhead place.line place.site }
    ensures { result ≡ next_post place.line place.site }
{
    if place.is_upward() {
        place.site.post + 1
    } else {
        place.site.post - 1
    }
}

// The new direction, by the running direction of a reversal under way.
pub fn announcement(cvt: bool) -> Said
    ensures { result ≡ cond cvt Vns Cvt }
{
    if cvt { Said::Vns } else { Said::Cvt }
}

pub fn acknowledgement(cvt: bool) -> Said
    ensures { result ≡ cond cvt Vnsz Cvtz }
{
    if cvt { Said::Vnsz } else { Said::Cvtz }
}
