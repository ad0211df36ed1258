// The steps that a post takes for itself, a function a row of the table: measures, faults, caution forms. They look at no train; those of measures
// and faults hold on any line.

#![tactic(auto, unfolding(site::specs::Ruling::ruling_of, rules::specs::Table::checks, rules::specs::Table::effect))]

ghost use Rattle.std.specs.Prelude.{false, [], ◌≡◌};
ghost use Rattle.section.specs.declared.Step.TheVariants.{MeasuresOn, MeasuresOff, FaultOn, FaultOff, Caution};
ghost use Rattle.rules.specs.declared.Line.{Line};
ghost use Rattle.rules.specs.Table.{without_fault};
ghost use Rattle.site.specs.Ruling.{ruling_at};

use crossings::crossing_ahead;
use rules::Site;
use section::{Fault, Post, Refusal, check};
use site::place::Place;
use site::ruling::{Ruling, keeping};

pub fn measures_on(e: Site) -> Ruling
    ensures { (c : Line) → result ≡ ruling_at c false (MeasuresOn e.post) e [] [] }
{
    check(!e.own.measures, Refusal::AlreadySo)?;
    Ok(keeping(e, e.own.measured(true)))
}

pub fn measures_off(e: Site) -> Ruling
    ensures { (c : Line) → result ≡ ruling_at c false (MeasuresOff e.post) e [] [] }
{
    check(e.own.measures, Refusal::AlreadySo)?;
    check(!e.own.device, Refusal::MeasuresNeeded)?;
    Ok(keeping(e, e.own.measured(false)))
}

pub fn fault_on(e: Site, fault: Fault) -> Ruling
    ensures { (c : Line) → result ≡ ruling_at c false (FaultOn e.post fault) e [] [] }
{
    check(!e.own.has_fault(fault), Refusal::AlreadySo)?;
    Ok(keeping(e, e.own.faulty(fault, true)))
}

// Fault 1 takes the mark with it.
fn without_fault(own: Post, fault: Fault) -> Post
    ensures { result ≡ without_fault fault own }
{
    match fault {
        Fault::One => own.faulty(Fault::One, false).marked(false),
        Fault::Two => own.faulty(Fault::Two, false),
        Fault::Three => own.faulty(Fault::Three, false),
        Fault::Four => own.faulty(Fault::Four, false),
    }
}

pub fn fault_off(e: Site, fault: Fault) -> Ruling
    ensures { (c : Line) → result ≡ ruling_at c false (FaultOff e.post fault) e [] [] }
{
    check(e.own.has_fault(fault), Refusal::AlreadySo)?;
    Ok(keeping(e, without_fault(e.own, fault)))
}

pub fn caution(place: Place, number: u16) -> Ruling
    ensures { result ≡ ruling_at place.line false (Caution place.site.post number) place.site [] [] }
{
    check(crossing_ahead(place), Refusal::NoSuchPart)?;
    Ok(keeping(place.site, place.site.own.cautioned(number)))
}
