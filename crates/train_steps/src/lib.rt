// A train's own steps, a function a row of the table: the checks in its order, then what the step does, its movement among it.

#![tactic(auto, using(site::proofs::place::Laws::has_ahead, site::proofs::place::Laws::has_before, site::proofs::place::Laws::sending_not_receiving, site::proofs::place::Laws::receiving_not_sending), unfolding(site::specs::Ruling::ruling_of, rules::specs::Table::checks, rules::specs::Table::effect, rules::specs::Table::cells_after, rules::specs::Site::occupancy_at, section::specs::Step::number_of))]

ghost use Rattle.std.specs.Prelude.{true, false, [], ◌≡◌};
ghost use Rattle.section.specs.declared.Step.TheVariants.{Start, Pass, Leave};
ghost use Rattle.site.specs.Ruling.{ruling_at, cells_ruled};

use crate::movement::{enter, moving, used_up, vacate};
use crossings::caution_held;
use occupancy::stretch::{pass_occupied, stretch_occupied};
use occupancy::trains::{any_numbered, train_before};
use rules::Movement;
use section::{Refusal, Trains, check};
use site::conditions::is_settled;
use site::place::Place;
use site::ruling::Ruling;

mod movement;

pub fn start(place: Place, number: u16, trains: &mut Trains, last: &mut Trains) -> Ruling
    ensures value { result ≡ ruling_at place.line false (Start place.site.post number) place.site trains.old [] }
    ensures trains_after { trains.new ≡ cells_ruled place.line true result place.site trains.old }
    ensures last_after { last.new ≡ cells_ruled place.line false result place.site last.old }
{
    check(is_settled(place.site.walk), Refusal::ReversalUnderWay)?;
    check(place.at_sending_end(), Refusal::NoSuchPart)?;
    check(
        !any_numbered(place.line.posts - 1, number, trains),
        Refusal::WrongTrain,
    )?;
    check(!stretch_occupied(place, trains), Refusal::Occupied)?;
    check(place.fault1_confirmed(), Refusal::FaultWithoutMark)?;
    check(caution_held(place, number), Refusal::CautionFormNeeded)?;
    enter(place, number, trains);
    enter(place, number, last);
    Ok(moving(
        place.site,
        used_up(place.site.own.marked(false), number),
        Movement::Enters(number),
    ))
}

pub fn pass(place: Place, number: u16, trains: &mut Trains, last: &mut Trains) -> Ruling
    ensures value { result ≡ ruling_at place.line false (Pass place.site.post number) place.site trains.old [] }
    ensures trains_after { trains.new ≡ cells_ruled place.line true result place.site trains.old }
    ensures last_after { last.new ≡ cells_ruled place.line false result place.site last.old }
{
    check(!place.at_end(), Refusal::NoSuchPart)?;
    check(train_before(place, trains) == number, Refusal::WrongTrain)?;
    check(!pass_occupied(place, trains), Refusal::Occupied)?;
    check(caution_held(place, number), Refusal::CautionFormNeeded)?;
    vacate(place, trains);
    enter(place, number, trains);
    enter(place, number, last); // beside the trains
    Ok(moving(
        place.site,
        used_up(place.site.own, number),
        Movement::Moves(number),
    ))
}

// What it leaves of the last trains is what was there.
pub fn leave(place: Place, number: u16, trains: &mut Trains) -> Ruling
    ensures value { result ≡ ruling_at place.line false (Leave place.site.post number) place.site trains.old [] }
    ensures trains_after { trains.new ≡ cells_ruled place.line true result place.site trains.old }
{
    check(place.at_receiving_end(), Refusal::NoSuchPart)?;
    check(train_before(place, trains) == number, Refusal::WrongTrain)?;
    vacate(place, trains);
    Ok(moving(place.site, place.site.own, Movement::Leaves))
}
