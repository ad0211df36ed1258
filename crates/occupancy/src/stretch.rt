// The stretch that begins at a post.
ghost use Rattle.std.specs.Prelude.{◌&&◌, ◌≡◌};
ghost use Rattle.rules.specs.Site.{rank_at, stretch_ends};
ghost use Rattle.occupancy.specs.Stretch.{stretch_occupied};

use crate::reach::holds_from;
use section::Trains;
use site::ends::ends_at;
use site::place::Place;

// In CVT it reaches to the next signalled post.
#[tactic(auto, using(site::proofs::place::Laws::rank_on_the_line), unfolding(rules::specs::Site::occupancy_at, rules::specs::Site::stretch_ends))]
pub fn stretch_occupied(place: Place, trains: &Trains) -> bool
    ensures { result ≡ stretch_occupied place.line place.site trains.now }
{
    let cvt = place.site.cvt;
    holds_from(place.line, cvt, place.is_upward(), place.rank(), trains)
}

// 13 of pass: a train in the stretch that begins at the post, if one does.
#[tactic(auto, using(site::proofs::place::Laws::rank_on_the_line), unfolding(rules::specs::Site::stretch_ends))]
pub fn pass_occupied(place: Place, trains: &Trains) -> bool
    ensures { result ≡ (stretch_ends place.line place.site.track place.site.cvt (rank_at place.line place.site) && stretch_occupied place.line place.site trains.now) }
{
    let cvt = place.site.cvt;
    ends_at(place.line, cvt, place.is_upward(), place.rank()) && stretch_occupied(place, trains)
}
