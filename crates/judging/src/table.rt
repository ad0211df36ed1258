// The table: each kind of step by the function of its row.
ghost use Rattle.std.specs.Prelude.{true, false, ◌≡◌};
ghost use Rattle.site.specs.InItsRanges.{InItsRanges};
ghost use Rattle.site.specs.Ruling.{ruling_at, cells_ruled};

use reversal_steps::{emergency, reversal};
use section::{Step, Trains};
use site::place::Place;
use site::ruling::Ruling;

// The ruling on a step at a site, beside a track that is or is not settled on VNS; an accepted step has moved its train.
#[tactic(auto, using(crate::proofs::table::Kept::kept, crate::proofs::table::Kept::nothing_moved), unfolding(rules::specs::Table::checks, rules::specs::Site::occupancy_at, section::specs::Step::number_of, rules::specs::Table::effect, rules::specs::Table::cells_after))]
pub fn rule(
    place: Place,
    x: Step,
    other_on_vns: bool,
    trains: &mut Trains,
    last: &mut Trains,
) -> Ruling
    requires { InItsRanges place.line place.site }
    ensures value { result ≡ ruling_at place.line other_on_vns x place.site trains.old last.old }
    ensures trains_after { trains.new ≡ cells_ruled place.line true result place.site trains.old }
    ensures last_after { last.new ≡ cells_ruled place.line false result place.site last.old }
{
    match x {
        Step::Order { post: _ } => reversal::order(place, other_on_vns, trains),
        Step::Set { post: _ } => reversal::set(place, trains),
        Step::Announce { post: _ } => reversal::announce(place),
        Step::Acknowledge { post: _ } => reversal::acknowledge(place.site),
        Step::Start { post: _, number } => train_steps::start(place, number, trains, last),
        Step::Pass { post: _, number } => train_steps::pass(place, number, trains, last),
        Step::Leave { post: _, number } => train_steps::leave(place, number, trains),
        Step::MeasuresOn { post: _ } => post_steps::measures_on(place.site),
        Step::MeasuresOff { post: _ } => post_steps::measures_off(place.site),
        Step::FaultOn { post: _, fault } => post_steps::fault_on(place.site, fault),
        Step::FaultOff { post: _, fault } => post_steps::fault_off(place.site, fault),
        Step::Release { post: _, number } => emergency::release(place, number, trains, last),
        Step::Key { post: _ } => emergency::key(place, trains),
        Step::Caution { post: _, number } => post_steps::caution(place, number),
    }
}
