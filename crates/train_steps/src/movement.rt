// What a train's step does: the cells of the block sections beside its post, and the post's record.
ghost use Rattle.std.specs.Prelude.{◌≡◌, set};
ghost use Rattle.rules.specs.Site.{block_ahead, block_before};
ghost use Rattle.rules.specs.Table.{used_up};
ghost use Rattle.site.specs.OnTheLine.{HasAhead, HasBefore};
ghost use Rattle.train_steps.specs.Moving.{moving};

use rules::{Effect, Movement, Site};
use section::{Post, Trains};
use site::place::Place;
use site::ruling::keeping;

// The train, or the last train, of the block section ahead.
pub fn enter(place: Place, number: u16, cells: &mut Trains)
    requires { HasAhead place.line place.site }
    ensures { cells.new ≡ set cells.old (block_ahead place.line place.site) number }
{
    cells[place.block_ahead()] = number;
}

// No train in the block section before the post.
pub fn vacate(place: Place, cells: &mut Trains)
    requires { HasBefore place.line place.site }
    ensures { cells.new ≡ set cells.old (block_before place.line place.site) 0 }
{
    cells[place.block_before()] = 0;
}

// A step that changes its post's record and moves a train.
pub fn moving(e: Site, own: Post, train: Movement) -> Effect
    ensures { result ≡ moving e own train }
{
    Effect {
        train,
        ..keeping(e, own)
    }
}

// A caution form for that train is used up.
pub fn used_up(own: Post, number: u16) -> Post
    ensures { result ≡ used_up number own }
{
    if own.caution == number {
        own.cautioned(0)
    } else {
        own
    }
}
