// Prints the lamp table for panel builders: 256 entries, one decimal number a line.

#![tactic(auto)]

use lines::lamps::{TABLE_ROOM, put_table};
use streams::Program;

#[tactic(auto, using(lines::proofs::lamps::Laws::table_fits, std::proofs::lemmas::Grind::common_steps))]
fn main(rt: HostRuntime) {
    let mut text = [0; TABLE_ROOM];
    let length = put_table(&mut text);
    let _ = Program::new(&rt, b"lamps").write_whole(&text[..length]);
}
