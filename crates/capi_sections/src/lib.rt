// The C interface to the engine, over a section's image: for the comparison with a second implementation.
// It is not stable: names, packed numbers and the image's layout may change with any delivery.

#![tactic(auto)]

ghost use Rattle.std.specs.Prelude.{◌≡◌, length};
ghost use Rattle.rules.specs.LampTable.{lamp_entry};
ghost use Rattle.capi_sections.specs.Engine.{fresh_answer, fresh_image, judge_answer, judge_image, shown_of};

use image::{IMAGE_LENGTH, reader, writer};
use packed::{lent_settings_well_formed, packed_indications, packed_verdict};

// What bytes that are no section's image give, as a state out of range does. A number, as C takes it.
const NO_IMAGE: u16 = 6;

// The fresh section's image, at the front of the buffer. The settings come in a day file's bytes.
#[tactic(auto, using(section::proofs::Told::told_false, section::proofs::Told::told_true, packed::proofs::Settings::settings_lent, crate::proofs::Images::no_settings_lem, crate::proofs::Images::too_short, crate::proofs::Images::put))]
#[unsafe(no_mangle)]
pub extern "C" fn bsr_fresh(settings: &[u8], buffer: &mut [u8]) -> u8
    ensures value { result ≡ fresh_answer settings.now (length buffer.old) }
    ensures buffer_after { buffer.new ≡ fresh_image settings.now buffer.old }
{
    if !lent_settings_well_formed(settings) {
        return 6;
    }
    if buffer.len() < IMAGE_LENGTH {
        return 5;
    }
    writer::put_image(buffer, section::fresh(layout::settings_of(settings)));
    0
}

// Judges a step. The image is written back only when the step is accepted.
#[tactic(auto, using(section::proofs::Told::told_false, section::proofs::Told::told_true, image::proofs::Laws::well_formed_length, crate::proofs::Images::no_image_answer, crate::proofs::Images::no_image_left, crate::proofs::Images::answered, crate::proofs::Images::written_back_lem, crate::proofs::Images::left_lem))]
#[unsafe(no_mangle)]
pub extern "C" fn bsr_judge(bytes: &mut [u8], step: &[u8]) -> u16
    ensures value { result ≡ judge_answer bytes.old step.now }
    ensures bytes_after { bytes.new ≡ judge_image bytes.old step.now }
{
    if !image::image_well_formed(bytes) {
        return NO_IMAGE;
    }
    let answer = engine::judge(reader::section_of(bytes), step);
    if answer.verdict.is_ok() {
        writer::put_image(bytes, answer.section);
    }
    packed_verdict(answer.verdict)
}

// What a post shows on a track.
#[tactic(auto, using(section::proofs::Told::told_false, section::proofs::Told::told_true, image::proofs::Laws::well_formed_length, crate::proofs::Images::nothing_shown, crate::proofs::Images::shown))]
#[unsafe(no_mangle)]
pub extern "C" fn bsr_indications(bytes: &[u8], track: u8, post: u8) -> u16
    ensures { result ≡ shown_of bytes.now track post }
{
    if !image::image_well_formed(bytes) {
        return 0;
    }
    packed_indications(engine::indications(reader::section_of(bytes), track, post))
}

// The entry of the lamp table at an index.
#[unsafe(no_mangle)]
pub extern "C" fn bsr_lamp_entry(index: u8) -> u8
    ensures { result ≡ lamp_entry index }
{
    indications::lamp_table::entry(index)
}
