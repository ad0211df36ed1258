// Order, set, announce, acknowledge. Cells that a kind does not look at stand in its contract as [], the other track as false.

#![tactic(auto, using(crate::proofs::Ahead::announce_ahead), unfolding(site::specs::Ruling::ruling_of, rules::specs::Table::checks, rules::specs::Table::effect, rules::specs::Site::occupancy_at))]

ghost use Rattle.std.specs.Prelude.{false, [], ◌≡◌};
ghost use Rattle.section.specs.declared.Step.TheVariants.{Order, Set, Announce, Acknowledge};
ghost use Rattle.rules.specs.declared.Line.{Line};
ghost use Rattle.site.specs.InItsRanges.{InItsRanges};
ghost use Rattle.site.specs.Ruling.{ruling_at};

use crate::walk::{acknowledgement, announcement, next_post, setting, walking};
use occupancy::part::{order_occupied, watched_occupied};
use rules::Site;
use section::{Act, Refusal, Said, Trains, Walk, check};
use site::conditions::{is_settled, is_turn, measures_suffice, order_allowed};
use site::place::Place;
use site::ruling::Ruling;

pub fn order(place: Place, other_on_vns: bool, trains: &Trains) -> Ruling
    ensures { result ≡ ruling_at place.line other_on_vns (Order place.site.post) place.site trains.now [] }
{
    check(is_settled(place.site.walk), Refusal::ReversalUnderWay)?;
    check(place.at_sending_end(), Refusal::NoSuchPart)?;
    check(
        order_allowed(place.site, other_on_vns),
        Refusal::OtherNotOnVns,
    )?;
    check(!order_occupied(place, trains), Refusal::Occupied)?;
    Ok(walking(
        place.site,
        place.site.own.permitted(false),
        Walk::Turn(place.site.post, Act::Set),
        Said::Nothing,
    ))
}

pub fn set(place: Place, trains: &Trains) -> Ruling
    ensures { result ≡ ruling_at place.line false (Set place.site.post) place.site trains.now [] }
{
    check(
        is_turn(place.site.walk, place.site.post, Act::Set),
        Refusal::NotItsTurn,
    )?;
    check(!watched_occupied(place, trains), Refusal::Occupied)?;
    check(place.fault1_confirmed(), Refusal::FaultWithoutMark)?;
    check(measures_suffice(place.site), Refusal::MeasuresNeeded)?;
    check(!place.site.own.faults.two, Refusal::DeviceLocked)?;
    Ok(setting(place, place.site.own))
}

pub fn announce(place: Place) -> Ruling
    requires { InItsRanges place.line place.site }
    ensures { result ≡ ruling_at place.line false (Announce place.site.post) place.site [] [] }
{
    check(
        is_turn(place.site.walk, place.site.post, Act::Announce),
        Refusal::NotItsTurn,
    )?;
    let next = Walk::Turn(next_post(place), Act::Acknowledge);
    Ok(walking(
        place.site,
        place.site.own,
        next,
        announcement(place.site.cvt),
    ))
}

// On any line.
pub fn acknowledge(e: Site) -> Ruling
    ensures { (c : Line) → result ≡ ruling_at c false (Acknowledge e.post) e [] [] }
{
    check(
        is_turn(e.walk, e.post, Act::Acknowledge),
        Refusal::NotItsTurn,
    )?;
    let next = Walk::Turn(e.post, Act::Set);
    Ok(walking(e, e.own, next, acknowledgement(e.cvt)))
}
