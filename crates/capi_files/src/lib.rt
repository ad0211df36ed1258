// The C interface to day files, over lent bytes: for the comparison with a second implementation and for its benchmark.
// It is not stable: names and packed numbers may change with any delivery.

#![tactic(auto)]

ghost use Rattle.std.specs.Prelude.{◌≡◌, length};
ghost use Rattle.layout.specs.Layout.{steps_part};
ghost use Rattle.dayfile.specs.Answers.{read_of, counted};
ghost use Rattle.packed.specs.Packed.{packed_reading, packed_outcome};
ghost use Rattle.capi_files.specs.DayFiles.{settings_answer, settings_buffer, write_answer, write_buffer};

use layout::SETTINGS_LENGTH;
use packed::{lent_settings_well_formed, packed_outcome, packed_reading};
use section::{CallRefusal, Outcome, check};

// Reads a day file: how many steps, or the refusal.
#[tactic(auto, unfolding(dayfile::specs::Answers::counted))]
fn count_steps(file: &[u8]) -> Outcome
    ensures { result ≡ counted (read_of file.now) }
{
    let day = dayfile::read(file)?;
    Ok(day.count)
}

// Reads a day file: the refusal, and the count of steps or the refusal's index.
#[tactic(auto, using(crate::proofs::Readings::reading_fits))]
#[unsafe(no_mangle)]
pub extern "C" fn bsr_read(file: &[u8]) -> u32
    ensures { result ≡ packed_reading (counted (read_of file.now)) }
{
    packed_reading(count_steps(file))
}

// Copies the settings of a day file to the front of the buffer.
#[tactic(auto, using(layout::proofs::Parts::tail_of_lem, layout::proofs::Parts::settings_long), unfolding(crate::specs::DayFiles::settings_answer, crate::specs::DayFiles::settings_buffer, crate::specs::DayFiles::settings_copied, crate::specs::DayFiles::settings_put, layout::specs::Layout::settings_part))]
fn copy_settings(file: &[u8], buffer: &mut [u8]) -> Outcome
    ensures value { result ≡ settings_answer file.now buffer.old }
    ensures buffer_after { buffer.new ≡ settings_buffer file.now buffer.old }
{
    let day = dayfile::read(file)?;
    let c = day.settings;
    let settings = layout::writer::settings_bytes(c);
    let end = SETTINGS_LENGTH + layout::writer::tail_of(c);
    text::copy_out(&settings[0..end], buffer)
}

// The settings of a day file in its own bytes, at the front of the buffer: eight or, with crossings, sixteen. The file's refusal and its index, 5
// for a buffer too short, or how many bytes.
#[unsafe(no_mangle)]
pub extern "C" fn bsr_settings(file: &[u8], buffer: &mut [u8]) -> u64
    ensures value { result ≡ packed_outcome (settings_answer file.now buffer.old) }
    ensures buffer_after { buffer.new ≡ settings_buffer file.now buffer.old }
{
    packed_outcome(copy_settings(file, buffer))
}

// The length of the part that holds the first so many steps.
#[unsafe(no_mangle)]
pub extern "C" fn bsr_steps_length(file: &[u8], count: u64) -> u64
    ensures { result ≡ length (steps_part file.now count) }
{
    let steps = dayfile::steps(file, count as usize);
    steps.len() as u64
}

// Writes the day file of settings, which come in a file's bytes, and steps.
#[tactic(auto, using(packed::proofs::Settings::settings_lent), unfolding(crate::specs::DayFiles::write_answer, crate::specs::DayFiles::write_buffer))]
fn write_lent(settings: &[u8], steps: &[u8], buffer: &mut [u8]) -> Outcome
    ensures value { result ≡ write_answer settings.now steps.now (length buffer.old) }
    ensures buffer_after { buffer.new ≡ write_buffer settings.now steps.now buffer.old }
{
    check(
        lent_settings_well_formed(settings),
        CallRefusal::WrongSettings,
    )?;
    dayfile::write(layout::settings_of(settings), steps, buffer)
}

// Writes the day file of settings, in a file's bytes, and steps: the refusal, and the file's length or the refusal's index.
#[unsafe(no_mangle)]
pub extern "C" fn bsr_write(settings: &[u8], steps: &[u8], buffer: &mut [u8]) -> u64
    ensures value { result ≡ packed_outcome (write_answer settings.now steps.now (length buffer.old)) }
    ensures buffer_after { buffer.new ≡ write_buffer settings.now steps.now buffer.old }
{
    packed_outcome(write_lent(settings, steps, buffer))
}
