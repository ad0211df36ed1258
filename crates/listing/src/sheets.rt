// What is printed of a file, a line a step: the listing or the panel.
ghost use Rattle.std.specs.Prelude.{◌≡◌, ◌*◌, ◌≤◌, length, replicate};
ghost use Rattle.section.specs.Fresh.{fresh_section};
ghost use Rattle.layout.specs.Layout.{most_steps};
ghost use Rattle.text.specs.Put.{HasRoom, put};
ghost use Rattle.text.specs.Text.{written};
ghost use Rattle.text.specs.Copied.{copied, copied_out};
ghost use Rattle.lines.specs.Lines.{step_line_room};
ghost use Rattle.notes.specs.Note.{note_length};
ghost use Rattle.lines.specs.PanelLine.{panel_line_room};
ghost use Rattle.listing.specs.declared.sheets.Sheet.{Sheet};
ghost use Rattle.listing.specs.Printed.{lines, printed_day, printed};
ghost use Rattle.listing.specs.Sheet.{line_on, line_room, room};

use crate::day::Day;
use judging_in_place::whole_day::note_day;
use judging_in_place::{Answers, judge_steps};
use layout::{MOST_STEPS, step_at};
use lines::listing::put_noted_lines;
use lines::panel::put_panel;
use lines::{put_header, put_refused};
use notes::{ANSWER_LENGTH, NOTE_LENGTH};
use section::Outcome;
use text::{Text, copy_out};

// What is printed of each step: what it did, or what the posts show after it. A trait in its place would hold the same two ways to put the
// lines, and beside them as laws what `line_on` and `room` say of both; and a caller has a sheet as a value.
#[derive(Clone, Copy)]
pub enum Sheet {
    Listing,
    Panel,
}

// The longest header, and the longest line of a step in a listing and in a panel.
const HEADER_ROOM: usize = 24;

const STEP_LINE_ROOM: usize = 21;

const PANEL_LINE_ROOM: usize = 104;

const LISTING_ROOM: usize = HEADER_ROOM + STEP_LINE_ROOM * MOST_STEPS;

pub const PANEL_ROOM: usize = HEADER_ROOM + PANEL_LINE_ROOM * MOST_STEPS;

const NOTES_ROOM: usize = NOTE_LENGTH * MOST_STEPS;

// The length of the longest sheet.
#[tactic(auto, unfolding(crate::specs::Sheet::room, crate::specs::Sheet::line_room))]
fn room_for(sheet: Sheet) -> usize
    ensures { result ≡ room sheet most_steps }
{
    match sheet {
        Sheet::Listing => LISTING_ROOM,
        Sheet::Panel => PANEL_ROOM,
    }
}

// Room for the longest listing. Not one function with `panel_room`: an array's length is in its type, so each call would have to name it.
#[tactic(auto, unfolding(crate::specs::Sheet::room, crate::specs::Sheet::line_room))]
pub fn listing_room() -> [u8; LISTING_ROOM]
    ensures { result ≡ replicate (room Sheet.Listing most_steps) 0 }
{
    [0; LISTING_ROOM]
}

// Room for the longest panel.
#[tactic(auto, unfolding(crate::specs::Sheet::room, crate::specs::Sheet::line_room))]
pub fn panel_room() -> [u8; PANEL_ROOM]
    ensures { result ≡ replicate (room Sheet.Panel most_steps) 0 }
{
    [0; PANEL_ROOM]
}

// Room for the notes of the longest day.
fn room_for_notes() -> [u8; NOTES_ROOM]
    ensures { note_length * most_steps ≡ length result }
{
    [0; NOTES_ROOM]
}

// Puts the listing's lines of all steps, from the notes taken of them. Such a day can be noted, so the answer is not looked at.
#[tactic(auto, using(judging_in_place::proofs::whole_day::Laws::day_done, judging_in_place::proofs::whole_day::Laws::notes_written, crate::proofs::sheets::Laws::lines_noted))]
fn put_listing_lines(text: &mut Text, day: &Day)
    requires { HasRoom text.old (step_line_room * day.now.count) }
    ensures { text.new ≡ put text.old (lines (line_on Sheet.Listing) (fresh_section day.now.settings) day.now.steps.now day.now.count) }
{
    let mut notes = room_for_notes();
    let _ = note_day(day.settings, day.steps, day.count, &mut notes);
    put_noted_lines(text, &notes, day.count);
}

// Puts the panel's lines of all steps, each judged on the section that the one before left. A line shows the posts after its step, so the walk
// is taken a step at a time; the answers are not shown.
#[tactic(auto, using(text::proofs::Put::first_none, crate::proofs::sheets::Laws::step_length_lem), unfolding(judging_in_place::specs::Offered::section_before, crate::specs::Printed::lines, crate::specs::Sheet::line_on))]
fn put_panel_lines(text: &mut Text, day: &Day)
    requires { HasRoom text.old (panel_line_room * day.now.count) }
    ensures { text.new ≡ put text.old (lines (line_on Sheet.Panel) (fresh_section day.now.settings) day.now.steps.now day.now.count) }
{
    let Day {
        settings,
        steps,
        count,
    } = *day;
    let mut state = section::fresh(settings);
    let mut answer: [u8; ANSWER_LENGTH] = [0; ANSWER_LENGTH];
    for i in 0..count {
        let bytes = step_at(steps, i);
        state = judge_steps::<Answers>(state, bytes, 1, false, &mut answer);
        put_panel(text, i, bytes[1], state);
    }
}

// Puts the lines of all steps.
#[tactic(auto, unfolding(crate::specs::Sheet::line_room))]
fn put_lines(sheet: Sheet, text: &mut Text, day: &Day)
    requires { HasRoom text.old (line_room sheet * day.now.count) }
    ensures { text.new ≡ put text.old (lines (line_on sheet) (fresh_section day.now.settings) day.now.steps.now day.now.count) }
{
    match sheet {
        Sheet::Listing => put_listing_lines(text, day),
        Sheet::Panel => put_panel_lines(text, day),
    }
}

// Puts what is printed of a day.
#[tactic(auto, using(text::proofs::Put::texts, lines::proofs::Puts::header_length), unfolding(crate::specs::Sheet::room, crate::specs::Printed::printed_day))]
fn put_day(sheet: Sheet, text: &mut Text, day: &Day)
    requires { HasRoom text.old (room sheet day.now.count) }
    ensures { text.new ≡ put text.old (printed_day (line_on sheet) day.now.settings day.now.count day.now.steps.now) }
{
    put_header(text, day.settings.posts, day.count);
    put_lines(sheet, text, day);
}

// Puts what is printed of a file.
#[tactic(auto, using(crate::proofs::sheets::Laws::fewer_fit, crate::proofs::sheets::Laws::few_steps_read, crate::proofs::sheets::Laws::steps_whole, crate::proofs::sheets::Laws::settings_read_right, crate::proofs::sheets::Laws::printed_refused, crate::proofs::sheets::Laws::printed_of_day), unfolding(crate::specs::Sheet::room))]
fn put_file(sheet: Sheet, file: &[u8], text: &mut Text)
    requires { HasRoom text.old (room sheet most_steps) }
    ensures { text.new ≡ put text.old (printed (line_on sheet) file.now) }
{
    match dayfile::read(file) {
        Ok(read) => {
            let day = Day {
                settings: read.settings,
                steps: dayfile::steps(file, read.count),
                count: read.count,
            };
            put_day(sheet, text, &day);
        }
        Err(refusal) => put_refused(text, u8::from(refusal), refusal.index()),
    }
}

// Writes what is printed of a file to the front of a buffer that any sheet fits, and returns its length.
#[tactic(auto, unfolding(text::specs::Put::put))]
fn put_sheet(sheet: Sheet, file: &[u8], buffer: &mut [u8]) -> usize
    requires { room sheet most_steps ≤ length buffer.old }
    ensures value { result ≡ length (printed (line_on sheet) file.now) }
    ensures buffer_after { buffer.new ≡ written buffer.old 0 (printed (line_on sheet) file.now) }
{
    let mut text = Text::new(buffer);
    put_file(sheet, file, &mut text);
    text.length()
}

// What is printed of a file, at the front of the buffer, if it is long enough. A buffer that any sheet fits is written to at once.
#[tactic(auto, using(crate::proofs::sheets::Front::front_fits, crate::proofs::sheets::Front::front_taken, crate::proofs::sheets::Front::put_at_once, crate::proofs::sheets::Laws::most_room))]
pub fn print(sheet: Sheet, file: &[u8], buffer: &mut [u8]) -> Outcome
    ensures value { result ≡ copied (printed (line_on sheet) file.now) buffer.old }
    ensures buffer_after { buffer.new ≡ copied_out (printed (line_on sheet) file.now) buffer.old }
{
    if room_for(sheet) <= buffer.len() {
        return Ok(put_sheet(sheet, file, buffer));
    }
    let mut space = panel_room();
    let length = put_sheet(sheet, file, &mut space);
    copy_out(&space[0..length], buffer)
}
