// Whether the level crossings of a line are in their ranges: a part of refusal 3.
ghost use Rattle.std.specs.Prelude.{◌≡◌, ◌↔◌, ◌≤◌, IsTrue};
ghost use Rattle.std.specs.List.{list_all};
ghost use Rattle.std.specs.List.Sorted.{IsNonDecreasingBy};
ghost use Rattle.section.specs.Crossings.{crossing_in_range, crossing_order, crossings_in_range};
ghost use Rattle.section.specs.Numbers.{least_posts, most_crossings};

use section::{Crossings, NO_ZONES, UNUSED};

// A block section of a line of n posts, or unused.
fn crossing_in_range(n: u8, crossing: u8) -> bool
    requires { least_posts ≤ n }
    ensures { result ≡ crossing_in_range n crossing }
{
    crossing == UNUSED || crossing % NO_ZONES <= n - 2
}

// Its place in the order: by block section, and in one those without NO_ZONES first. Unused has the last.
fn crossing_order(crossing: u8) -> u8
    ensures { result ≡ crossing_order crossing }
{
    crossing % NO_ZONES * 2 + crossing / NO_ZONES
}

fn each_in_range(n: u8, crossings: &Crossings) -> bool
    requires { least_posts ≤ n }
    ensures { result ≡ list_all (crossing_in_range n) crossings.now }
{
    crossings
        .iter()
        .all(|crossing| crossing_in_range(n, *crossing))
}

fn never_falls(crossings: &Crossings) -> bool
    ensures { IsTrue result ↔ IsNonDecreasingBy crossing_order crossings.now }
{
    crossings.is_sorted_by_key(|crossing| crossing_order(*crossing))
}

#[tactic(auto, using(crate::proofs::crossings::Laws::not_each))]
pub fn crossings_in_range(n: u8, crossings: &Crossings) -> bool
    requires { least_posts ≤ n }
    ensures { result ≡ crossings_in_range n most_crossings crossings.now }
{
    each_in_range(n, crossings) && never_falls(crossings)
}
