// The parts of a day file as they are written: settings, mark and trailer.
ghost use Rattle.std.specs.Prelude.{◌≡◌, ◌≤◌};
ghost use Rattle.section.specs.Numbers.{most_crossings};
ghost use Rattle.layout.specs.Layout.{most_steps, mark_of, tail_of, settings_bytes, trailer};

use crate::{BSR1, BSR2, LONGEST_SETTINGS, SETTINGS_LENGTH, SHORTEST_FILE, TRAILER_LENGTH};
use section::{MOST_CROSSINGS, STEP_LENGTH, Settings, UNUSED};

// The bytes of settings, the crossings last.
pub fn settings_bytes(c: Settings) -> [u8; LONGEST_SETTINGS]
    ensures { result ≡ settings_bytes c }
{
    let mut bytes = [0; LONGEST_SETTINGS];
    bytes[0] = c.posts;
    bytes[1] = c.form;
    bytes[2..4].copy_from_slice(&c.mask.to_le_bytes());
    bytes[4..6].copy_from_slice(&c.line.to_le_bytes());
    bytes[SETTINGS_LENGTH..].copy_from_slice(&c.crossings);
    bytes
}

// The length of the tail that a file of these settings has: none where no crossing is listed.
#[tactic(auto, unfolding(crate::specs::Layout::tail_of))]
pub fn tail_of(c: Settings) -> usize
    ensures { result ≡ tail_of c }
{
    if c.crossings[0] == UNUSED {
        return 0; // no crossing
    }
    MOST_CROSSINGS
}

// The mark of a file with such a tail.
#[tactic(auto, unfolding(crate::specs::Layout::mark_of))]
pub fn mark_of(tail: usize) -> [u8; 4]
    ensures { result ≡ mark_of tail }
{
    if tail == 0 {
        return BSR1;
    }
    BSR2 // with a tail
}

// The trailer of a file with such a tail and so many steps.
pub fn trailer(tail: usize, count: usize) -> [u8; TRAILER_LENGTH]
    requires { (tail ≤ most_crossings) × (count ≤ most_steps) }
    ensures { result ≡ trailer tail count }
{
    let near = (SHORTEST_FILE + tail) as u32;
    let far = (SHORTEST_FILE + tail + STEP_LENGTH * count) as u32;
    let mut trailer = [0; TRAILER_LENGTH];
    trailer[..4].copy_from_slice(&mark_of(tail));
    trailer[4..8].copy_from_slice(&near.to_le_bytes());
    trailer[8..12].copy_from_slice(&far.to_le_bytes());
    trailer[12..].copy_from_slice(&(count as u32).to_le_bytes());
    trailer
}
