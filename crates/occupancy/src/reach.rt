// The search from a post on, up to where a stretch or a part ends.
ghost use Rattle.std.specs.Prelude.{◌≡◌, ◌<◌, ◌≤◌};
ghost use Rattle.section.specs.Numbers.{most_posts};
ghost use Rattle.occupancy.specs.Reach.{holds_from};

use crate::trains::train_after;
use rules::Line;
use section::Trains;
use site::ends::ends_at;

// A train between the post of rank `from` and the next at which one ends: the next signalled post, or the next of all.
#[tactic(auto, using(crate::proofs::reach::Laws::reach_here, crate::proofs::reach::Laws::reach_ended, crate::proofs::reach::Laws::reach_on), unfolding(rules::specs::Site::reach))]
pub fn holds_from(c: Line, signalled_only: bool, up: bool, from: u8, trains: &Trains) -> bool
    requires { (from < c.posts) × (c.posts ≤ most_posts) }
    ensures { result ≡ holds_from c signalled_only up trains.now from }
{
    for j in from..c.posts - 1 {
        if train_after(trains, c.posts, up, j) != 0 {
            return true;
        }
        if ends_at(c, signalled_only, up, j + 1) {
            return false;
        }
    }
    false
}
