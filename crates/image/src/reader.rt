// A section from its image.
ghost use Rattle.std.specs.Prelude.{◌≡◌, ◌+◌, ◌≤◌, length};
ghost use Rattle.section.specs.Numbers.{most_posts, most_blocks};
ghost use Rattle.image.specs.Image.{image_length, track_length, post_length, posts_length, number_length, numbers_length};
ghost use Rattle.image.specs.Image.{number_at, post_at, posts_from, numbers_from, walk_of, track_from, section_of};

use crate::{
    IMAGE_LENGTH, LAST_TRAINS, NUMBER_LENGTH, POST_LENGTH, POSTS, SETTINGS, TRACK_A, TRACK_B,
    TRACK_LENGTH, TRAINS,
};
use section::{Act, Faults, Post, Posts, Section, Track, Trains, Walk};
use std::array;

// Two bytes, the lower first. Bytes and a place, since a slice of two would be no plainer at its calls.
#[tactic(auto, unfolding(crate::specs::Image::number_at, section::specs::Bytes::le16))]
pub fn number_at(bytes: &[u8], at: usize) -> u16
    requires { at + number_length ≤ length bytes.now }
    ensures { result ≡ number_at bytes.now at }
{
    u16::from_le_bytes([bytes[at], bytes[at + 1]])
}

// A post from its ten bytes.
#[tactic(auto, unfolding(crate::specs::Image::post_at))]
fn post_of(bytes: &[u8]) -> Post
    requires { post_length ≤ length bytes.now }
    ensures { result ≡ post_at bytes.now 0 }
{
    let flags = bytes[3];
    let faults = Faults {
        one: flags % 2 == 1,
        two: flags / 2 % 2 == 1,
        three: flags / 4 % 2 == 1,
        four: flags / 8 % 2 == 1,
    };
    Post {
        device: bytes[0] == 1,
        permission: bytes[1] == 1,
        measures: bytes[2] == 1,
        faults,
        mark: bytes[4] == 1,
        seals: number_at(bytes, 6),
        caution: number_at(bytes, 8),
    }
}

fn posts_of(bytes: &[u8]) -> Posts
    requires { posts_length ≤ length bytes.now }
    ensures { result ≡ posts_from bytes.now 0 most_posts }
{
    array::from_fn(|i| post_of(&bytes[POST_LENGTH * i..POST_LENGTH * (i + 1)]))
}

fn numbers_of(bytes: &[u8]) -> Trains
    requires { numbers_length ≤ length bytes.now }
    ensures { result ≡ numbers_from bytes.now 0 most_blocks }
{
    array::from_fn(|i| number_at(bytes, NUMBER_LENGTH * i))
}

// Of a number and a post, as C hands them over.
#[tactic(auto, unfolding(crate::specs::Image::walk_of))]
fn walk_of(act: u8, post: u8) -> Walk
    ensures { result ≡ walk_of act post }
{
    match act {
        0 => Walk::Settled,
        1 => Walk::Turn(post, Act::Set),
        2 => Walk::Turn(post, Act::Announce),
        _ => Walk::Turn(post, Act::Acknowledge),
    }
}

// A track from its bytes alone.
#[tactic(auto, unfolding(crate::specs::Image::track_from))]
fn track_of(bytes: &[u8]) -> Track
    requires { track_length ≤ length bytes.now }
    ensures { result ≡ track_from bytes.now 0 }
{
    Track {
        posts: posts_of(&bytes[POSTS..TRAINS]),
        trains: numbers_of(&bytes[TRAINS..LAST_TRAINS]),
        last: numbers_of(&bytes[LAST_TRAINS..TRACK_LENGTH]),
        cvt: bytes[0] == 1,
        walk: walk_of(bytes[1], bytes[2]),
    }
}

// The section that an image says.
#[tactic(auto, unfolding(crate::specs::Image::section_of))]
pub fn section_of(bytes: &[u8]) -> Section
    requires { image_length ≤ length bytes.now }
    ensures { result ≡ section_of bytes.now }
{
    Section {
        settings: layout::settings_of(&bytes[SETTINGS..TRACK_A]),
        a: track_of(&bytes[TRACK_A..TRACK_B]),
        b: track_of(&bytes[TRACK_B..IMAGE_LENGTH]),
    }
}
