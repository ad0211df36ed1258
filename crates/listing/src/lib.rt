// The bench listing and the panel of a day file, from bytes to bytes.

#![tactic(auto)]

mod day;
pub mod sheets;

ghost use Rattle.std.specs.Prelude.{◌≡◌, ◌+◌, replicate};
ghost use Rattle.layout.specs.Layout.{longest_file};
ghost use Rattle.text.specs.Copied.{copied, copied_out};
ghost use Rattle.listing.specs.Listing.{listing};
ghost use Rattle.listing.specs.Panel.{panel};

use crate::sheets::{Sheet, print};
use layout::LONGEST_FILE;
use section::Outcome;

// A byte more than the longest day file has.
const FILE_ROOM: usize = LONGEST_FILE + 1;

// Room for one byte more than the longest day file, so that a longer one is seen to be too long.
pub fn file_room() -> [u8; FILE_ROOM]
    ensures { result ≡ replicate (longest_file + 1) 0 }
{
    [0; FILE_ROOM]
}

// The bench listing of a file. Not one generic function with `panel`, which is no plainer: each is one call of `print`, with its own definition.
#[tactic(auto, unfolding(crate::specs::Listing::listing, crate::specs::Sheet::line_on))]
pub fn listing(file: &[u8], buffer: &mut [u8]) -> Outcome
    ensures value { result ≡ copied (listing file.now) buffer.old }
    ensures buffer_after { buffer.new ≡ copied_out (listing file.now) buffer.old }
{
    print(Sheet::Listing, file, buffer)
}

// The panel of a file.
#[tactic(auto, unfolding(crate::specs::Panel::panel, crate::specs::Sheet::line_on))]
pub fn panel(file: &[u8], buffer: &mut [u8]) -> Outcome
    ensures value { result ≡ copied (panel file.now) buffer.old }
    ensures buffer_after { buffer.new ≡ copied_out (panel file.now) buffer.old }
{
    print(Sheet::Panel, file, buffer)
}
