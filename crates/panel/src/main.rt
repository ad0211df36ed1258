// Prints the panel of the day file on standard input.

#![tactic(auto)]

ghost use Rattle.std.specs.Prelude.{◌≤◌, length, IfSome};

use listing::file_room;
use listing::sheets::panel_room;
use streams::Program;

// Makes the panel of a file, and answers how long it is, if it has room.
#[tactic(auto, using(text::proofs::CopiedOut::within))]
fn make_panel(file: &[u8], text: &mut [u8]) -> Option<usize>
    ensures { IfSome result (λ n. n ≤ length text.new) }
{
    listing::panel(file, text).ok()
}

fn main(rt: HostRuntime) {
    let mut panel = Program::new(&rt, b"panel");
    let _ = panel.convert(&mut file_room(), &mut panel_room(), make_panel);
}
