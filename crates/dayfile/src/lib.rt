// Day files (document 01, "The day file"; document 02, request 1): the reader and the writer, of both marks.

#![tactic(auto)]

ghost use Rattle.std.specs.Prelude.{◌≡◌, ◌≤◌, ◌++◌, length, drop};
ghost use Rattle.layout.specs.Layout.{most_steps, steps_distance, tail_of, step_count, file_of, steps_part};
ghost use Rattle.dayfile.specs.Answers.{read_of, write_verdict, written_into};

use layout::{MOST_STEPS, SETTINGS_LENGTH, SHORTEST_FILE};
use ranges::settings;
use section::{CallRefusal, Outcome, STEP_LENGTH, Settings, check};
use text::Text;

// A day file that is read: its settings, and how many steps it has.
#[derive(Clone, Copy)]
pub struct ReadDay {
    pub settings: Settings,
    pub count: usize,
}

// Reads a day file.
#[tactic(auto, using(crate::proofs::Reader::long_enough, crate::proofs::Reader::answer_1, crate::proofs::Reader::answer_2, crate::proofs::Reader::answer_3, crate::proofs::Reader::answer_4, crate::proofs::Reader::answer_day, file_tests::proofs::Laws::settings_enough, file_tests::proofs::Laws::trailer_fits_lem, section::proofs::Told::told, section::proofs::Told::told_false, section::proofs::Told::told_true))]
pub fn read(file: &[u8]) -> Result<ReadDay, CallRefusal>
    ensures { result ≡ read_of file.now }
{
    check(
        !file_tests::length_wrong(file.len()),
        CallRefusal::WrongLength,
    )?;
    check(file_tests::trailer_fits(file), CallRefusal::WrongTrailer)?;
    let bytes = layout::settings_in(file);
    check(
        file_tests::settings_well_formed(bytes),
        CallRefusal::WrongSettings,
    )?;
    let settings = layout::settings_of(bytes);
    let steps = layout::steps_in(file);
    let count = layout::step_count(steps);
    let first = file_tests::first_malformed(settings.posts, steps);
    check(count <= first, CallRefusal::MalformedStep(first))?;
    Ok(ReadDay { settings, count })
}

// The first so many steps, as that part of the caller's own file.
#[tactic(auto, unfolding(layout::specs::Layout::steps_part))]
pub fn steps(file: &[u8], count: usize) -> &[u8]
    ensures { result.now ≡ steps_part file.now count }
{
    if file.len() / STEP_LENGTH < count {
        return &file[0..0];
    }
    let end = count * STEP_LENGTH;
    &file[0..end]
}

// Puts the file at the front of the buffer.
#[tactic(auto, using(text::proofs::Put::texts, text::proofs::Laws::at_front, layout::proofs::Parts::tail_of_lem, layout::proofs::Parts::trailer_long, crate::proofs::Writer::steps_fit, crate::proofs::Writer::settings_fit), unfolding(text::specs::Put::put, layout::specs::Layout::file_of, layout::specs::Layout::settings_part))]
fn put(c: Settings, steps: &[u8], count: usize, buffer: &mut [u8])
    requires { (count ≡ step_count steps.now) × ((count ≤ most_steps) × (steps_distance (tail_of c) count ≤ length buffer.old)) }
    ensures { buffer.new ≡ file_of c steps.now ++ drop (length (file_of c steps.now)) buffer.old }
{
    let tail = layout::writer::tail_of(c);
    let size = SETTINGS_LENGTH + tail;
    let settings = layout::writer::settings_bytes(c);
    let mut file = Text::new(buffer);
    file.put_text(steps);
    file.put_text(&settings[..size]);
    file.put_text(&layout::writer::trailer(tail, count));
}

// How long the day file of settings and steps is, if so much room is enough, or the refusal.
#[tactic(auto, using(layout::proofs::Parts::tail_of_lem, crate::proofs::Writer::answer_3, crate::proofs::Writer::answer_4, crate::proofs::Writer::answer_5_many, crate::proofs::Writer::answer_5_short, crate::proofs::Writer::answer_bytes_lem, section::proofs::Told::told_false, section::proofs::Told::told_true))]
fn file_length(c: Settings, steps: &[u8], room: usize) -> Outcome
    ensures { result ≡ write_verdict c steps.now room }
{
    check(settings::settings_in_range(c), CallRefusal::WrongSettings)?;
    let count = layout::step_count(steps);
    let malformed = file_tests::first_malformed(c.posts, steps);
    check(count <= malformed, CallRefusal::MalformedStep(malformed))?;
    check(count <= MOST_STEPS, CallRefusal::NoRoom)?; // more than a file has
    let length = SHORTEST_FILE + layout::writer::tail_of(c) + STEP_LENGTH * count;
    check(length <= room, CallRefusal::NoRoom)?; // shorter than the file
    Ok(length)
}

// Writes the day file of settings and steps to the front of the buffer: how long it is, or the refusal.
#[tactic(auto, using(crate::proofs::Writer::bytes_fit, crate::proofs::Writer::steps_few), unfolding(crate::specs::Answers::written_into, section::specs::Outcome::if_done))]
pub fn write(c: Settings, steps: &[u8], buffer: &mut [u8]) -> Outcome
    ensures value { result ≡ write_verdict c steps.now (length buffer.old) }
    ensures buffer_after { buffer.new ≡ written_into c steps.now buffer.old }
{
    let length = file_length(c, steps, buffer.len())?;
    put(c, steps, layout::step_count(steps), buffer);
    Ok(length)
}
