// Level crossings in the block section ahead, and the caution form (E.S. 379) that a train needs there.

#![tactic(auto)]

ghost use Rattle.std.specs.Prelude.{◌&&◌, ◌≡◌};
ghost use Rattle.section.specs.Crossings.{lacks_zones, lies_in};
ghost use Rattle.section.specs.Numbers.{most_crossings};
ghost use Rattle.rules.specs.Site.{any_of, crossing_ahead, zones_lack_ahead};
ghost use Rattle.rules.specs.Table.{caution_needed, caution_held};

use section::{Crossings, NO_ZONES, UNUSED};
use site::place::Place;

fn lies_in(block: usize, b: u8) -> bool
    ensures { result ≡ lies_in block b }
{
    b != UNUSED && (b % NO_ZONES) as usize == block
}

// A crossing lies in the block section.
fn any_in(crossings: &Crossings, block: usize) -> bool
    ensures { result ≡ any_of (lies_in block) most_crossings crossings.now }
{
    crossings.iter().any(|b| lies_in(block, *b))
}

// One without counter-direction announcing zones does.
fn zones_lack_in(crossings: &Crossings, block: usize) -> bool
    ensures { result ≡ any_of (λ b. lies_in block b && lacks_zones b) most_crossings crossings.now }
{
    crossings
        .iter()
        .any(|b| lies_in(block, *b) && *b >= NO_ZONES)
}

// 12 of a caution form: a crossing lies in the block section ahead; the receiving end has none ahead.
#[tactic(auto, using(site::proofs::place::Laws::has_ahead, crate::proofs::Laws::crossing_before))]
pub fn crossing_ahead(place: Place) -> bool
    ensures { result ≡ crossing_ahead place.line place.site }
{
    !place.at_receiving_end() && any_in(&place.line.crossings, place.block_ahead())
}

#[tactic(auto, using(site::proofs::place::Laws::has_ahead, crate::proofs::Laws::zones_before))]
fn zones_lack_ahead(place: Place) -> bool
    ensures { result ≡ zones_lack_ahead place.line place.site }
{
    !place.at_receiving_end() && zones_lack_in(&place.line.crossings, place.block_ahead())
}

// A train that enters the block section ahead needs a caution form: under fault 4 for any crossing, in CVT for one without zones.
#[tactic(auto, using(crate::proofs::Laws::zones_lack_there))]
fn caution_needed(place: Place) -> bool
    ensures { result ≡ caution_needed place.line place.site }
{
    if place.site.own.faults.four {
        crossing_ahead(place)
    } else {
        place.site.cvt && zones_lack_ahead(place)
    }
}

// 22: the train needs no caution form, or the one at the post is for it. A line without crossings is known by its first byte.
#[tactic(auto, using(crate::proofs::Laws::none_ahead))]
pub fn caution_held(place: Place, number: u16) -> bool
    ensures { result ≡ caution_held place.line number place.site }
{
    place.line.crossings[0] == UNUSED || !caution_needed(place) || place.site.own.caution == number
}
