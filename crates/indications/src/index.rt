// The index of a post's state in the lamp table: eight bits.
ghost use Rattle.std.specs.Prelude.{true, ◌≡◌, ◌+◌, ◌*◌, ◌≤◌};
ghost use Rattle.section.specs.Numbers.{most_posts};
ghost use Rattle.section.specs.Range.{walk_in_range};
ghost use Rattle.rules.specs.Site.{up_at, rank_at, open_at};
ghost use Rattle.rules.specs.Indications.{set_count, is_next_to_set, lamps_at};
ghost use Rattle.rules.specs.LampTable.{index_of};
ghost use Rattle.site.specs.InItsRanges.{InItsRanges};
ghost use Rattle.indications.specs.Index.{index_of_post};

use occupancy::part::watched_occupied;
use section::{Act, Post, Trains, Walk, positions};
use site::line::is_materialised;
use site::place::Place;

// How many posts, from the sending end on, have set in this reversal.
#[tactic(auto, using(section::proofs::Laws::rank_lt, crate::proofs::index::Laws::turn_below), unfolding(rules::specs::Indications::set_count))]
fn set_count(n: u8, up: bool, walk: Walk) -> u8
    requires { (n ≤ most_posts) × (walk_in_range n up walk ≡ true) }
    ensures { result ≡ set_count n up walk }
{
    match walk {
        Walk::Settled => 0,
        Walk::Turn(p, Act::Announce) => positions::rank(n, up, p) + 1,
        Walk::Turn(p, _) => positions::rank(n, up, p),
    }
}

// The post before has set in this reversal and this one has not; the sending end has none before it.
#[tactic(auto, using(crate::proofs::index::Laws::next_first, crate::proofs::index::Laws::next_later))]
fn is_next(place: Place) -> bool
    requires { InItsRanges place.line place.site }
    ensures { result ≡ is_next_to_set (open_at place.line place.site.track place.site.cvt) (set_count place.line.posts (up_at place.line place.site) place.site.walk) (rank_at place.line place.site) }
{
    let j = place.rank();
    j != 0 && set_count(place.line.posts, place.is_upward(), place.site.walk) == j
}

// The part of the index by what the post's record keeps.
fn index_of_post(own: Post) -> u8
    ensures { result ≡ index_of_post own }
{
    u8::from(own.device) * 2
        + u8::from(own.faults.one) * 8
        + u8::from(own.faults.three) * 16
        + u8::from(own.permission) * 128
}

// The index of a site's eight bits in the lamp table.
#[tactic(auto, using(crate::proofs::index::Laws::index_parts))]
pub fn index_at(place: Place, trains: &Trains) -> u8
    requires { InItsRanges place.line place.site }
    ensures { result ≡ index_of (lamps_at place.line place.site trains.now) }
{
    index_of_post(place.site.own)
        + u8::from(is_materialised(place.line))
        + u8::from(is_next(place)) * 4
        + u8::from(watched_occupied(place, trains)) * 32
        + u8::from(place.commands()) * 64
}
