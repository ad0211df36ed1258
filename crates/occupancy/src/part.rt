// The part that a post commands.
ghost use Rattle.std.specs.Prelude.{cond, ◌≡◌, ◌-◌};
ghost use Rattle.rules.specs.Line.{is_materialised};
ghost use Rattle.rules.specs.Site.{is_train, any_of, watched_occupied};

use crate::reach::holds_from;
use crate::trains::any_train;
use section::Trains;
use site::line::is_materialised;
use site::place::Place;

// A train in it; on materialised lines it reaches to the next signalled post.
#[tactic(auto, using(site::proofs::place::Laws::rank_on_the_line), unfolding(rules::specs::Site::watched_occupied, rules::specs::Site::part_ends))]
pub fn watched_occupied(place: Place, trains: &Trains) -> bool
    ensures { result ≡ watched_occupied place.line place.site trains.now }
{
    let line = place.line;
    place.commands()
        && holds_from(
            line,
            is_materialised(line),
            place.is_upward(),
            place.rank(),
            trains,
        )
}

// 13 of order: by telephone a train anywhere on the track, materialised one in the part.
pub fn order_occupied(place: Place, trains: &Trains) -> bool
    ensures { result ≡ cond (is_materialised place.line) (watched_occupied place.line place.site trains.now) (any_of is_train (place.line.posts - 1) trains.now) }
{
    if is_materialised(place.line) {
        watched_occupied(place, trains)
    } else {
        any_train(place.line.posts - 1, trains)
    }
}
