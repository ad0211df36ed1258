// The image of a section, 466 bytes: its layout, and whether every byte of it stands for a value.
// The layout may change with any delivery, and its number with it: an image of another layout is not well formed.

#![tactic(auto)]

pub mod reader;
pub mod writer;

ghost use Rattle.std.specs.Prelude.{◌≡◌, ◌≤◌, ◌&&◌, length};
ghost use Rattle.section.specs.Numbers.{most_posts};
ghost use Rattle.image.specs.Image.{track_length, post_length, posts_length, track_a, track_b, image_length};
ghost use Rattle.image.specs.Image.{post_well_formed, posts_well_formed, walk_well_formed, track_well_formed, image_well_formed};

use layout::LONGEST_SETTINGS;
use section::{MOST_BLOCKS, MOST_POSTS};

// Every post that a track can keep, also past n.
pub const POSTS_HELD: usize = MOST_POSTS as usize;

pub const POST_LENGTH: usize = 10;

pub const NUMBER_LENGTH: usize = 2;

// Where the posts, the trains and the last trains stand in a track's image.
pub const POSTS: usize = 4;

pub const TRAINS: usize = POSTS + POST_LENGTH * POSTS_HELD;

pub const LAST_TRAINS: usize = TRAINS + NUMBER_LENGTH * MOST_BLOCKS;

const TRACK_LENGTH: usize = LAST_TRAINS + NUMBER_LENGTH * MOST_BLOCKS;

// The number of this layout, in an image's first two bytes.
pub const LAYOUT_NUMBER: u16 = 2;

// Where the settings and each track stand in a section's image.
pub const SETTINGS: usize = NUMBER_LENGTH;

// Bytes 6–7 of the settings, which are zero.
const SETTINGS_ZEROS: usize = SETTINGS + 6;

pub const TRACK_A: usize = SETTINGS + LONGEST_SETTINGS;

pub const TRACK_B: usize = TRACK_A + TRACK_LENGTH;

pub const IMAGE_LENGTH: usize = TRACK_B + TRACK_LENGTH;

// Of a post: device, permission, measures, faults, mark, zero.
#[tactic(auto, unfolding(crate::specs::Image::post_well_formed))]
fn post_well_formed(bytes: &[u8]) -> bool
    requires { post_length ≤ length bytes.now }
    ensures { result ≡ post_well_formed bytes.now 0 }
{
    bytes[0] <= 1
        && bytes[1] <= 1
        && bytes[2] <= 1
        && bytes[3] <= 15
        && bytes[4] <= 1
        && bytes[5] == 0
}

// Of all sixteen posts.
fn posts_well_formed(bytes: &[u8]) -> bool
    requires { posts_length ≤ length bytes.now }
    ensures { result ≡ posts_well_formed bytes.now 0 most_posts }
{
    (0..POSTS_HELD).all(|i| post_well_formed(&bytes[POST_LENGTH * i..POST_LENGTH * (i + 1)]))
}

// Of the act and the turn's post, which is zero with no reversal.
#[tactic(auto, unfolding(crate::specs::Image::walk_well_formed))]
fn walk_well_formed(act: u8, post: u8) -> bool
    ensures { result ≡ walk_well_formed act post }
{
    if act == 0 { post == 0 } else { act <= 3 }
}

// Of a track: direction, act and turn's post, zero, posts.
#[tactic(auto, using(crate::proofs::Places::posts_place), unfolding(crate::specs::Image::track_well_formed))]
fn track_well_formed(bytes: &[u8]) -> bool
    requires { track_length ≤ length bytes.now }
    ensures { result ≡ track_well_formed bytes.now 0 }
{
    bytes[0] <= 1
        && walk_well_formed(bytes[1], bytes[2])
        && bytes[3] == 0
        && posts_well_formed(&bytes[POSTS..TRAINS])
}

// Of both tracks.
#[tactic(auto, using(crate::proofs::Places::track_place))]
fn tracks_well_formed(bytes: &[u8]) -> bool
    requires { image_length ≤ length bytes.now }
    ensures { result ≡ (track_well_formed bytes.now track_a && track_well_formed bytes.now track_b) }
{
    track_well_formed(&bytes[TRACK_A..TRACK_B]) && track_well_formed(&bytes[TRACK_B..IMAGE_LENGTH])
}

// Of this length and this layout, zero where the settings say nothing, and both tracks.
#[tactic(auto, unfolding(crate::specs::Image::image_well_formed))]
pub fn image_well_formed(bytes: &[u8]) -> bool
    ensures { result ≡ image_well_formed bytes.now }
{
    bytes.len() == IMAGE_LENGTH
        && reader::number_at(bytes, 0) == LAYOUT_NUMBER
        && reader::number_at(bytes, SETTINGS_ZEROS) == 0
        && tracks_well_formed(bytes)
}
