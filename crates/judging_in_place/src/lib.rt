// Steps offered one after another to a section and judged in its tracks: the one walk over steps. The two tracks stand side by side, and a step
// changes them in their places; so nothing of the section is copied between two steps.

#![tactic(auto)]

mod entries;
mod tracks;
pub mod whole_day;

ghost use Rattle.std.specs.Prelude.{true, ◌≡◌, ◌*◌, ◌≤◌, length};
ghost use Rattle.section.specs.Numbers.{step_length};
ghost use Rattle.section.specs.Range.{in_range};
ghost use Rattle.text.specs.Text.{written};
ghost use Rattle.judging_in_place.specs.Offered.{section_before, AllWellFormed};
ghost use Rattle.judging_in_place.specs.Entries.{entries_of};

pub use crate::entries::{Answers, Entries, Notes, put_note_of};
pub use crate::tracks::judge_in_place;
use crate::tracks::judge_on_line;
use layout::step_at;
use section::Section;
use site::line::line_of;

// Judges the first so many steps, each on the section that the one before left, writes what is kept of each from the buffer's front on, and
// hands the section back. Judging keeps the ranges, so they are not tested again.
// `known` is a value: a type for it would need a trait with an instance for true and one for false, for one `if` of `steps::decode_known`.
#[tactic(auto, using(crate::proofs::Walk::entry_fits, crate::proofs::Walk::ends))]
pub fn judge_steps<E: Entries>(
    s: Section,
    steps: &[u8],
    count: usize,
    known: bool,
    buffer: &mut [u8],
) -> Section
    requires s_value { (in_range s ≡ true) × (known ≡ true → AllWellFormed s.settings.posts steps.now count) }
    requires count_in_bounds { (step_length * count ≤ length steps.now) × (E.entry.long * count ≤ length buffer.old) }
    ensures value { result ≡ section_before s steps.now count }
    ensures buffer_after { buffer.new ≡ written buffer.old 0 (entries_of E.entry s steps.now count) }
{
    let c = s.settings;
    let line = line_of(c);
    let mut tracks = [s.a, s.b];
    for i in 0..count {
        let verdict = judge_on_line(c, line, known, step_at(steps, i), &mut tracks);
        E::put(buffer, i, verdict, &tracks);
    }
    Section {
        settings: c,
        a: tracks[0],
        b: tracks[1],
    }
}
