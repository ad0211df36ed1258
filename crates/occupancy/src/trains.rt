// The trains in the block sections. Cells and numbers are compared at 16 bits, as they are kept.
ghost use Rattle.std.specs.Prelude.{false, ◌≡◌, ◌+◌, ◌<◌, ◌≤◌, get_or};
ghost use Rattle.section.specs.Numbers.{most_blocks, most_posts};
ghost use Rattle.section.specs.Geometry.{block};
ghost use Rattle.rules.specs.Site.{any_of, is_train, is_number, at_sending_end, at_receiving_end, block_ahead, train_before};

use section::{Trains, positions};
use site::place::Place;

// The train, or the last train, of block section i.
fn train_in(cells: &Trains, i: usize) -> u16
    requires { i < most_blocks }
    ensures { result ≡ get_or cells.now i 0 }
{
    cells[i]
}

// The same of the block section that follows the post of rank j.
#[tactic(auto, using(site::proofs::place::Laws::block_below))]
pub fn train_after(cells: &Trains, n: u8, up: bool, j: u8) -> u16
    requires { (j + 1 < n) × (n ≤ most_posts) }
    ensures { result ≡ get_or cells.now (block n up j) 0 }
{
    train_in(cells, positions::block(n, up, j) as usize)
}

// One of the first m block sections keeps a train.
pub fn any_train(m: u8, trains: &Trains) -> bool
    requires { m ≤ most_blocks }
    ensures { result ≡ any_of is_train m trains.now }
{
    trains[..m as usize].iter().any(|x| *x != 0)
}

// One of the first m block sections keeps that number.
pub fn any_numbered(m: u8, number: u16, trains: &Trains) -> bool
    requires { m ≤ most_blocks }
    ensures { result ≡ any_of (is_number number) m trains.now }
{
    trains[..m as usize].iter().any(|x| *x == number)
}

// The train in the block section before the post.
#[tactic(auto, using(site::proofs::place::Laws::has_before), unfolding(rules::specs::Site::train_before))]
pub fn train_before(place: Place, trains: &Trains) -> u16
    requires { at_sending_end place.line place.site ≡ false }
    ensures { result ≡ train_before place.line place.site trains.now }
{
    train_in(trains, place.block_before())
}

// The train, or the last train, of the block section ahead.
#[tactic(auto, using(site::proofs::place::Laws::has_ahead))]
pub fn train_ahead(place: Place, cells: &Trains) -> u16
    requires { at_receiving_end place.line place.site ≡ false }
    ensures { result ≡ get_or cells.now (block_ahead place.line place.site) 0 }
{
    train_in(cells, place.block_ahead())
}
