// A section into its image.
ghost use Rattle.std.specs.Prelude.{◌≡◌, ◌+◌, ◌≤◌, length};
ghost use Rattle.section.specs.Numbers.{most_posts, most_blocks};
ghost use Rattle.text.specs.Put.{HasRoom, put};
ghost use Rattle.text.specs.Text.{written};
ghost use Rattle.image.specs.Image.{image_length, track_length, posts_length, numbers_length, faults_byte, post_image, posts_image};
ghost use Rattle.image.specs.Image.{numbers_image, act_number, walk_image, track_head, track_image, image_of};

use crate::{LAYOUT_NUMBER, POST_LENGTH, POSTS_HELD};
use section::{Act, MOST_BLOCKS, Post, Posts, Section, Track, Trains, Walk};
use text::Text;

#[tactic(auto, using(crate::proofs::Laws::flag_number, crate::proofs::Laws::flag_small), unfolding(crate::specs::Image::faults_byte))]
fn faults_byte(o: Post) -> u8
    ensures { result ≡ faults_byte o }
{
    let low = u8::from(o.faults.one) + u8::from(o.faults.two) * 2;
    low + u8::from(o.faults.three) * 4 + u8::from(o.faults.four) * 8
}

#[tactic(auto, unfolding(crate::specs::Image::post_image, layout::specs::Layout::le16_bytes))]
fn post_bytes(o: Post) -> [u8; POST_LENGTH]
    ensures { result ≡ post_image o }
{
    let seals = o.seals.to_le_bytes();
    let caution = o.caution.to_le_bytes();
    [
        u8::from(o.device),
        u8::from(o.permission),
        u8::from(o.measures),
        faults_byte(o),
        u8::from(o.mark),
        0,
        seals[0],
        seals[1],
        caution[0],
        caution[1],
    ]
}

// No From: Act is section's type, and only this layout, which C sees, has the number.
#[tactic(auto, unfolding(crate::specs::Image::act_number))]
fn act_number(act: Act) -> u8
    ensures { result ≡ act_number act }
{
    match act {
        Act::Set => 1,
        Act::Announce => 2,
        Act::Acknowledge => 3,
    }
}

// The act and the turn's post.
#[tactic(auto, unfolding(crate::specs::Image::walk_image))]
fn walk_bytes(walk: Walk) -> [u8; 2]
    ensures { result ≡ walk_image walk }
{
    match walk {
        Walk::Settled => [0, 0],
        Walk::Turn(post, act) => [act_number(act), post],
    }
}

// What stands before a track's posts.
#[tactic(auto, using(crate::proofs::writer::Laws::two_and_zero), unfolding(crate::specs::Image::track_head))]
fn track_head(t: &Track) -> [u8; 4]
    ensures { result ≡ track_head t.now }
{
    let [act, post] = walk_bytes(t.walk);
    [u8::from(t.cvt), act, post, 0]
}

#[tactic(auto, using(text::proofs::Put::first_none), unfolding(crate::specs::Image::posts_image))]
fn put_posts(text: &mut Text, posts: &Posts)
    requires { HasRoom text.old posts_length }
    ensures { text.new ≡ put text.old (posts_image most_posts posts.now) }
{
    for i in 0..POSTS_HELD {
        text.put_text(&post_bytes(posts[i]));
    }
}

#[tactic(auto, using(text::proofs::Put::first_none), unfolding(crate::specs::Image::numbers_image))]
fn put_numbers(text: &mut Text, numbers: &Trains)
    requires { HasRoom text.old numbers_length }
    ensures { text.new ≡ put text.old (numbers_image most_blocks numbers.now) }
{
    for i in 0..MOST_BLOCKS {
        text.put_text(&numbers[i].to_le_bytes());
    }
}

#[tactic(auto, using(text::proofs::Put::texts, crate::proofs::Laws::posts_length_lem, crate::proofs::Laws::numbers_length_lem, crate::proofs::Laws::head_length_lem, crate::proofs::writer::Laws::track_put))]
fn put_track(text: &mut Text, t: &Track)
    requires { HasRoom text.old track_length }
    ensures { text.new ≡ put text.old (track_image t.now) }
{
    text.put_text(&track_head(t));
    put_posts(text, &t.posts);
    put_numbers(text, &t.trains);
    put_numbers(text, &t.last);
}

// Writes a section's image to the front of the buffer.
#[tactic(auto, using(text::proofs::Put::texts, layout::proofs::Parts::settings_long, crate::proofs::Laws::track_length_lem), unfolding(text::specs::Put::put, layout::specs::Layout::le16_bytes, crate::specs::Image::image_of, crate::specs::Image::image_head))]
pub fn put_image(buffer: &mut [u8], s: Section)
    requires { image_length ≤ length buffer.old }
    ensures { buffer.new ≡ written buffer.old 0 (image_of s) }
{
    let mut text = Text::new(buffer);
    text.put_text(&LAYOUT_NUMBER.to_le_bytes());
    text.put_text(&layout::writer::settings_bytes(s.settings));
    put_track(&mut text, &s.a);
    put_track(&mut text, &s.b);
}
