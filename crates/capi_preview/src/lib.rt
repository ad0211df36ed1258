// The C interface to a step tried first, over a section's image: for test rigs and for the comparison with a second implementation.
// It is not stable: names, packed numbers and the image's layout may change with any delivery.

#![tactic(auto)]

ghost use Rattle.std.specs.Prelude.{◌≡◌, cond, ◌≤◌, length};
ghost use Rattle.section.specs.Range.{in_range};
ghost use Rattle.text.specs.Put.{HasRoom, put};
ghost use Rattle.text.specs.Text.{written};
ghost use Rattle.capi_preview.specs.Preview.{lamps_length, track_lamps_length, lamp_bytes, track_lamps, lamps, preview_answer, preview_lamps};

use image::reader;
use indications::track::PostsShown;
use packed::packed_verdict;
use section::{Indications, MOST_POSTS, Section};
use text::Text;

// Three bytes a post, for both tracks.
const LAMPS: usize = 2 * 3 * MOST_POSTS as usize;

// Numbers, as C takes them: what a buffer gives that is too short.
const TOO_SHORT: u16 = 5;

// What a state out of range gives, and bytes that are no section's image.
const OUT_OF_RANGE: u16 = 6;

// CIRCULATION, TRONÇON and permission of a post.
#[tactic(auto, unfolding(crate::specs::Preview::lamp_bytes))]
fn lamp_bytes(shown: Indications) -> [u8; 3]
    ensures { result ≡ lamp_bytes shown }
{
    [shown.circulation, shown.troncon, shown.permission]
}

// Puts those of the posts 0 to 15 of a track.
fn put_track(text: &mut Text, shown: PostsShown)
    requires { HasRoom text.old track_lamps_length }
    ensures { text.new ≡ put text.old (track_lamps shown) }
{
    let lamps = shown.map(lamp_bytes);
    text.put_text(lamps.as_flattened());
}

// Those of track A, then of B, at the buffer's front.
#[tactic(auto, using(text::proofs::Put::texts, crate::proofs::Lamps::track_lamps_length_lem), unfolding(text::specs::Put::put, crate::specs::Preview::lamps))]
fn put_lamps(buffer: &mut [u8], a: PostsShown, b: PostsShown)
    requires { lamps_length ≤ length buffer.old }
    ensures { buffer.new ≡ written buffer.old 0 (lamps a b) }
{
    let mut text = Text::new(buffer);
    put_track(&mut text, a);
    put_track(&mut text, b);
}

// What a call gives whose buffer is too short: 6 comes before 5.
#[tactic(auto, using(section::proofs::Told::told_false, section::proofs::Told::told_true))]
fn without_room(s: Section) -> u16
    ensures { result ≡ cond (in_range s) 5 6 }
{
    if !ranges::in_range(s) {
        return OUT_OF_RANGE;
    }
    TOO_SHORT
}

// Tries a step: the answer of judging it, and what every post of both tracks would show. The image is only read.
#[tactic(auto, using(section::proofs::Told::told_false, section::proofs::Told::told_true, image::proofs::Laws::well_formed_length, crate::proofs::Lamps::no_image, crate::proofs::Lamps::too_short, crate::proofs::Lamps::tried))]
#[unsafe(no_mangle)]
pub extern "C" fn bsr_preview(bytes: &[u8], step: &[u8], buffer: &mut [u8]) -> u16
    ensures value { result ≡ preview_answer bytes.now step.now (length buffer.old) }
    ensures buffer_after { buffer.new ≡ preview_lamps bytes.now step.now buffer.old }
{
    if !image::image_well_formed(bytes) {
        return OUT_OF_RANGE;
    }
    let s = reader::section_of(bytes);
    if buffer.len() < LAMPS {
        return without_room(s);
    }
    let tried = engine::preview(s, step);
    put_lamps(buffer, tried.a, tried.b);
    packed_verdict(tried.verdict)
}
