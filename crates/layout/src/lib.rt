// The layout of a day file, and its parts as they are read.

#![tactic(auto)]

pub mod writer;

ghost use Rattle.std.specs.Prelude.{◌≡◌, ◌+◌, ◌*◌, ◌≤◌, length};
ghost use Rattle.section.specs.Numbers.{step_length};
ghost use Rattle.layout.specs.Layout.{shortest_file, settings_distance, settings_length, trailer_length, le32_at, has_mark};
ghost use Rattle.layout.specs.Layout.{trailer_in, tail_in, settings_in, steps_in, crossings_of, settings_of, step_at, step_count};

use section::{Crossings, MOST_CROSSINGS, STEP_LENGTH, Settings, UNUSED};
use std::array;

pub const MOST_STEPS: usize = 4096;

// Without the crossings.
pub const SETTINGS_LENGTH: usize = 8;

// With the crossings.
pub const LONGEST_SETTINGS: usize = SETTINGS_LENGTH + MOST_CROSSINGS;

pub const TRAILER_LENGTH: usize = 16;

// The mark of a file without crossings, and of one with them.
pub const BSR1: [u8; 4] = *b"BSR1";

pub const BSR2: [u8; 4] = *b"BSR2";

// Without steps and without a tail, as the crossings between settings and trailer are called. From the file's end to the settings it is this much
// and the tail.
pub const SHORTEST_FILE: usize = SETTINGS_LENGTH + TRAILER_LENGTH;

pub const LONGEST_FILE: usize = SHORTEST_FILE + MOST_CROSSINGS + STEP_LENGTH * MOST_STEPS;

// The 32-bit number from byte i on.
#[tactic(auto, unfolding(crate::specs::Layout::le32, crate::specs::Layout::le32_at))]
pub fn le32_at(s: &[u8], i: usize) -> u32
    requires { i + 4 ≤ length s.now }
    ensures { result ≡ le32_at s.now i }
{
    u32::from_le_bytes([s[i], s[i + 1], s[i + 2], s[i + 3]])
}

// The crossings that the tail says: UNUSED where the bytes end before.
fn crossings_of(s: &[u8]) -> Crossings
    ensures { result ≡ crossings_of s.now }
{
    array::from_fn(|i| s.get(SETTINGS_LENGTH + i).copied().unwrap_or(UNUSED))
}

// The settings that eight bytes say, or sixteen.
#[tactic(auto, unfolding(crate::specs::Layout::settings_of, section::specs::Bytes::le16))]
pub fn settings_of(s: &[u8]) -> Settings
    requires { settings_length ≤ length s.now }
    ensures { result ≡ settings_of s.now }
{
    Settings {
        posts: s[0],
        form: s[1],
        mask: u16::from_le_bytes([s[2], s[3]]),
        line: u16::from_le_bytes([s[4], s[5]]),
        crossings: crossings_of(s),
    }
}

// The trailer, as a part of the file.
#[tactic(auto, unfolding(crate::specs::Layout::trailer_in, crate::specs::Layout::from_end))]
pub fn trailer_in(file: &[u8]) -> &[u8]
    requires { shortest_file ≤ length file.now }
    ensures { result.now ≡ trailer_in file.now }
{
    let start = file.len() - TRAILER_LENGTH;
    &file[start..]
}

// Whether the trailer begins with the mark.
#[tactic(auto, unfolding(crate::specs::Layout::has_mark))]
pub fn has_mark(mark: [u8; 4], t: &[u8]) -> bool
    requires { trailer_length ≤ length t.now }
    ensures { result ≡ has_mark mark t.now }
{
    t.starts_with(&mark)
}

// The length of the tail that a file with this mark has.
#[tactic(auto, using(section::proofs::Told::told, crate::proofs::Parts::trailer_length_lem), unfolding(crate::specs::Layout::tail_in))]
pub fn tail_in(file: &[u8]) -> usize
    requires { shortest_file ≤ length file.now }
    ensures { result ≡ tail_in file.now }
{
    if has_mark(BSR2, trailer_in(file)) {
        return MOST_CROSSINGS;
    }
    0
}

// The settings with their tail, as a part of the file.
#[tactic(auto, unfolding(crate::specs::Layout::settings_in, crate::specs::Layout::from_end))]
pub fn settings_in(file: &[u8]) -> &[u8]
    requires { settings_distance (tail_in file.now) ≤ length file.now }
    ensures { result.now ≡ settings_in file.now }
{
    let tail = tail_in(file);
    let start = file.len() - (SHORTEST_FILE + tail);
    let end = start + (SETTINGS_LENGTH + tail);
    &file[start..end]
}

// All that stands before the settings.
#[tactic(auto, unfolding(crate::specs::Layout::steps_in))]
pub fn steps_in(file: &[u8]) -> &[u8]
    requires { settings_distance (tail_in file.now) ≤ length file.now }
    ensures { result.now ≡ steps_in file.now }
{
    let tail = tail_in(file);
    let end = file.len() - (SHORTEST_FILE + tail);
    &file[0..end]
}

// The bytes of step i.
#[tactic(auto, unfolding(crate::specs::Layout::step_at))]
pub fn step_at(steps: &[u8], i: usize) -> &[u8]
    requires { step_length * i + step_length ≤ length steps.now }
    ensures { result.now ≡ step_at steps.now i }
{
    let start = i * STEP_LENGTH;
    let end = start + STEP_LENGTH;
    &steps[start..end]
}

// How many steps these bytes are, an incomplete one at the end with them.
#[tactic(auto, unfolding(crate::specs::Layout::step_count))]
pub fn step_count(steps: &[u8]) -> usize
    ensures { result ≡ step_count steps.now }
{
    steps.len().div_ceil(STEP_LENGTH)
}
