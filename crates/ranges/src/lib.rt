// The ranges of the settings of a line, its level crossings among them (refusal 3), and of a state (refusal 6).

#![tactic(auto)]

mod crossings;
pub mod settings;

ghost use Rattle.std.specs.Prelude.{◌≡◌, ◌↔◌, ◌&&◌, ◌-◌, ◌<◌, ◌≤◌, ℕ, IsTrue, get_or, leb};
ghost use Rattle.section.specs.Numbers.{largest_train, least_posts, most_blocks, most_posts};
ghost use Rattle.section.specs.Post.{blank};
ghost use Rattle.section.specs.Range.{post_in_range, posts_in_range, numbers_in_range, act_in_range, walk_in_range, track_in_range, in_range};

use crate::settings::settings_in_range;
use section::positions::{is_first, is_last, is_upward};
use section::{Act, LARGEST_TRAIN, MOST_SEALS, Post, Section, Track, Walk};

// A post's seal count, and the train of its caution form.
#[tactic(auto, unfolding(section::specs::Range::post_in_range))]
fn post_in_range(own: Post) -> bool
    ensures { result ≡ post_in_range own }
{
    own.seals <= MOST_SEALS && own.caution <= LARGEST_TRAIN
}

// A post's record, and the train and the last train of the block section beside it.
fn post_and_block_in_range(own: Post, train: u16, last: u16) -> bool
    ensures { result ≡ (post_in_range own && (leb train largest_train && leb last largest_train)) }
{
    post_in_range(own) && train <= LARGEST_TRAIN && last <= LARGEST_TRAIN
}

// Each of the first m posts with the block section beside it. One chain for the three arrays, and the track by value: with a chain for each array the
// test of a section took 84 nanoseconds in place of 51, and with a track that is lent 149.
fn first_cells_in_range(m: usize, t: Track) -> bool
    requires { m ≤ most_blocks }
    ensures { IsTrue result ↔ ((i : ℕ) → i < m → IsTrue (post_in_range (get_or t.posts i blank) && (leb (get_or t.trains i 0) largest_train && leb (get_or t.last i 0) largest_train))) }
{
    (0..m).all(|i| post_and_block_in_range(t.posts[i], t.trains[i], t.last[i]))
}

// The end post n − 1, and every other post with the block section beside it.
#[tactic(auto, using(crate::proofs::Cells::end_out))]
fn cells_in_range(n: u8, t: Track) -> bool
    requires least { least_posts ≤ n }
    requires most { n ≤ most_posts }
    ensures { result ≡ (posts_in_range n t.posts && (numbers_in_range (n - 1) t.trains && numbers_in_range (n - 1) t.last)) }
{
    let end = usize::from(n - 1);
    post_in_range(t.posts[end]) && first_cells_in_range(end, t)
}

// Announce is never at the last post, acknowledge never at the first.
#[tactic(auto, unfolding(section::specs::Range::act_in_range))]
fn act_in_range(n: u8, up: bool, p: u8, act: Act) -> bool
    requires { p < n }
    ensures { result ≡ act_in_range n up p act }
{
    match act {
        Act::Set => true,
        Act::Announce => !is_last(n, up, p),
        Act::Acknowledge => !is_first(n, up, p),
    }
}

#[tactic(auto, unfolding(section::specs::Range::walk_in_range))]
fn walk_in_range(n: u8, up: bool, walk: Walk) -> bool
    ensures { result ≡ walk_in_range n up walk }
{
    match walk {
        Walk::Settled => true,
        Walk::Turn(p, act) => p < n && act_in_range(n, up, p, act),
    }
}

// A track's n posts, the n − 1 block sections between them, and its walk.
#[tactic(auto, using(section::proofs::Laws::track_cells))]
fn track_in_range(n: u8, track: bool, t: Track) -> bool
    requires least { least_posts ≤ n }
    requires most { n ≤ most_posts }
    ensures { result ≡ track_in_range n track t }
{
    cells_in_range(n, t) && walk_in_range(n, is_upward(track, t.cvt), t.walk)
}

// What refusal 6 asks for.
#[tactic(auto, using(section::proofs::Laws::posts_right), unfolding(section::specs::Range::in_range))]
pub fn in_range(s: Section) -> bool
    ensures { result ≡ in_range s }
{
    let n = s.settings.posts;
    settings_in_range(s.settings) && track_in_range(n, false, s.a) && track_in_range(n, true, s.b)
}
