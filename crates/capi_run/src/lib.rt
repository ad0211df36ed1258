// The C interface to a run of steps, over a section's image: for test rigs, and for the comparison with a second implementation.
// It is not stable: names, packed numbers and the image's layout may change with any delivery.

#![tactic(auto)]

ghost use Rattle.std.specs.Prelude.{◌≡◌, length};
ghost use Rattle.packed.specs.Packed.{packed_outcome};
ghost use Rattle.capi_run.specs.Run.{run_outcome, run_image, run_answers};

use image::{reader, writer};
use packed::packed_outcome;
use section::{CallRefusal, Outcome, check};

// Offers the steps to the section of the image, which is written back only when the call is not refused.
#[tactic(auto, using(image::proofs::Laws::well_formed_length, crate::proofs::Images::no_image_left, crate::proofs::Images::no_answers, crate::proofs::Images::outcome_told, crate::proofs::Images::answers_are, crate::proofs::Images::written_back, crate::proofs::Images::left), unfolding(crate::specs::Run::run_outcome))]
fn run_lent(bytes: &mut [u8], steps: &[u8], answers: &mut [u8]) -> Outcome
    ensures value { result ≡ run_outcome bytes.old steps.now (length answers.old) }
    ensures bytes_after { bytes.new ≡ run_image bytes.old steps.now (length answers.old) }
    ensures answers_after { answers.new ≡ run_answers bytes.old steps.now answers.old }
{
    check(
        image::image_well_formed(bytes),
        CallRefusal::StateOutOfRange,
    )?;
    let answer = run::run(reader::section_of(bytes), steps, answers);
    if answer.outcome.is_ok() {
        writer::put_image(bytes, answer.section);
    }
    answer.outcome
}

// Offers the steps one after another and writes the answer to each, from the buffer's front on. How many steps were taken, or the refusal and its
// index.
#[unsafe(no_mangle)]
pub extern "C" fn bsr_run(bytes: &mut [u8], steps: &[u8], answers: &mut [u8]) -> u64
    ensures value { result ≡ packed_outcome (run_outcome bytes.old steps.now (length answers.old)) }
    ensures bytes_after { bytes.new ≡ run_image bytes.old steps.now (length answers.old) }
    ensures answers_after { answers.new ≡ run_answers bytes.old steps.now answers.old }
{
    packed_outcome(run_lent(bytes, steps, answers))
}
