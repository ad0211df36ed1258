// The steps for a device that fails: release, for fault 1, and key, for fault 2.

#![tactic(auto, using(rules::proofs::Parts::commands_not_last), unfolding(site::specs::Ruling::ruling_of, rules::specs::Table::checks, rules::specs::Table::effect, rules::specs::Site::occupancy_at, rules::specs::Site::last_entered))]

ghost use Rattle.std.specs.Prelude.{false, [], ◌≡◌};
ghost use Rattle.section.specs.declared.Step.TheVariants.{Release, Key};
ghost use Rattle.site.specs.InItsRanges.{InItsRanges};
ghost use Rattle.site.specs.Ruling.{ruling_at};

use crate::walk::setting;
use occupancy::part::watched_occupied;
use occupancy::trains::train_ahead;
use section::{Act, MOST_SEALS, Refusal, Trains, check};
use site::conditions::{is_turn, measures_suffice};
use site::place::Place;
use site::ruling::{Ruling, keeping};

pub fn release(place: Place, number: u16, trains: &Trains, last: &Trains) -> Ruling
    ensures { result ≡ ruling_at place.line false (Release place.site.post number) place.site trains.now last.now }
{
    check(place.release_in_turn(), Refusal::NotItsTurn)?;
    check(place.commands(), Refusal::NoSuchPart)?;
    check(place.site.own.faults.one, Refusal::AlreadySo)?;
    check(!watched_occupied(place, trains), Refusal::Occupied)?;
    check(train_ahead(place, last) == number, Refusal::WrongTrain)?;
    Ok(keeping(place.site, place.site.own.marked(true)))
}

pub fn key(place: Place, trains: &Trains) -> Ruling
    requires { InItsRanges place.line place.site }
    ensures { result ≡ ruling_at place.line false (Key place.site.post) place.site trains.now [] }
{
    check(
        is_turn(place.site.walk, place.site.post, Act::Set),
        Refusal::NotItsTurn,
    )?;
    check(place.site.own.faults.two, Refusal::AlreadySo)?;
    check(!watched_occupied(place, trains), Refusal::Occupied)?;
    check(place.fault1_confirmed(), Refusal::FaultWithoutMark)?;
    check(measures_suffice(place.site), Refusal::MeasuresNeeded)?;
    check(place.site.own.seals != MOST_SEALS, Refusal::SealsUsedUp)?;
    Ok(setting(place, place.site.own.sealed()))
}
