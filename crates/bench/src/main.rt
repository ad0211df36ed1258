// Prints the listing of the day file on standard input.

#![tactic(auto)]

ghost use Rattle.std.specs.Prelude.{◌≤◌, length, IfSome};

use listing::file_room;
use listing::sheets::listing_room;
use streams::Program;

// Makes the listing of a file, and answers how long it is, if it has room.
#[tactic(auto, using(text::proofs::CopiedOut::within))]
fn make_listing(file: &[u8], text: &mut [u8]) -> Option<usize>
    ensures { IfSome result (λ n. n ≤ length text.new) }
{
    listing::listing(file, text).ok()
}

fn main(rt: HostRuntime) {
    let mut bench = Program::new(&rt, b"bench");
    let _ = bench.convert(&mut file_room(), &mut listing_room(), make_listing);
}
