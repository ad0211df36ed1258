// The tests of a day file: its length, its trailer, its settings and its steps.

#![tactic(auto)]

ghost use Rattle.std.specs.Prelude.{◌≡◌, ◌+◌, ◌*◌, ◌≤◌, length};
ghost use Rattle.section.specs.Numbers.{most_crossings, step_length};
ghost use Rattle.layout.specs.Layout.{most_steps, shortest_file, trailer_length};
ghost use Rattle.file_tests.specs.Tests.{length_wrong, length_suits, trailer_well_formed, trailer_fits, settings_well_formed, first_malformed};

use layout::{LONGEST_FILE, MOST_STEPS, SETTINGS_LENGTH, SHORTEST_FILE, step_at};
use ranges::settings;
use section::STEP_LENGTH;
use steps::well_formed;

// Below 24, above 32,800 or not a multiple of 8.
#[tactic(auto, unfolding(crate::specs::Tests::length_wrong))]
pub fn length_wrong(size: usize) -> bool
    ensures { result ≡ length_wrong size }
{
    size < SHORTEST_FILE || size > LONGEST_FILE || size % STEP_LENGTH != 0
}

// Whether a file with such a tail can be so long.
#[tactic(auto, unfolding(crate::specs::Tests::length_suits))]
fn length_suits(tail: usize, size: usize) -> bool
    requires { tail ≤ most_crossings }
    ensures { result ≡ length_suits tail size }
{
    let shortest = SHORTEST_FILE + tail;
    (shortest..=shortest + STEP_LENGTH * MOST_STEPS).contains(&size)
}

// Whether the trailer is that of a file with such a tail and so many steps.
#[tactic(auto, unfolding(crate::specs::Tests::trailer_well_formed))]
fn trailer_well_formed(tail: usize, count: usize, t: &[u8]) -> bool
    requires { (tail ≤ most_crossings) × ((count ≤ most_steps) × (trailer_length ≤ length t.now)) }
    ensures { result ≡ trailer_well_formed tail count t.now }
{
    layout::has_mark(layout::writer::mark_of(tail), t)
        && layout::le32_at(t, 4) as usize == SHORTEST_FILE + tail
        && layout::le32_at(t, 8) as usize == SHORTEST_FILE + tail + STEP_LENGTH * count
        && layout::le32_at(t, 12) as usize == count
}

// Whether the trailer is what the file's length demands.
#[tactic(auto, using(layout::proofs::Parts::tail_in_lem, layout::proofs::Parts::trailer_length_lem, crate::proofs::Laws::length_suits_lem, crate::proofs::Laws::few_steps), unfolding(crate::specs::Tests::trailer_fits))]
pub fn trailer_fits(file: &[u8]) -> bool
    requires { shortest_file ≤ length file.now }
    ensures { result ≡ trailer_fits file.now }
{
    let tail = layout::tail_in(file);
    length_suits(tail, file.len())
        && trailer_well_formed(
            tail,
            layout::step_count(layout::steps_in(file)),
            layout::trailer_in(file),
        )
}

// Whether bytes are settings: eight of them, or sixteen with at least one crossing; within their ranges, and bytes 6 and 7 zero.
#[tactic(auto, using(layout::proofs::Parts::tail_of_lem), unfolding(crate::specs::Tests::settings_well_formed, crate::specs::Tests::zeros_well_formed))]
pub fn settings_well_formed(s: &[u8]) -> bool
    ensures { result ≡ settings_well_formed s.now }
{
    if s.len() < SETTINGS_LENGTH {
        return false;
    }
    let c = layout::settings_of(s);
    settings::settings_in_range(c)
        && section::le16_of(s[6], s[7]) == 0
        && s.len() == SETTINGS_LENGTH + layout::writer::tail_of(c)
}

// The index of the first malformed step, or the number of steps where none is. An incomplete step follows the whole ones, and is malformed.
// A number and no Option, which is no plainer: the definition is this number, and its callers check that every step comes before it.
#[tactic(auto, unfolding(crate::specs::Tests::first_malformed, layout::specs::Layout::step_count))]
pub fn first_malformed(n: u8, steps: &[u8]) -> usize
    ensures { result ≡ first_malformed n steps.now }
{
    let whole = steps.len() / STEP_LENGTH;
    (0..whole)
        .find(
            |&i|
                requires { step_length * i + step_length ≤ length steps.now }
            { !well_formed::is_well_formed(n, step_at(steps, i)) },
        )
        .unwrap_or(whole)
}
