// The fresh section.
ghost use Rattle.std.specs.Prelude.{◌≡◌, cond, ◌-◌};
ghost use Rattle.section.specs.Fresh.{fresh_track, fresh_section};

use crate::{MOST_BLOCKS, MOST_POSTS, Section, Settings, Track, Walk, blank};

// The post that may start trains on a fresh track.
fn fresh_start(n: u8, track: bool) -> u8
    ensures { result ≡ cond track (n - 1) 0 }
{
    if track { n.saturating_sub(1) } else { 0 }
}

fn fresh_track(n: u8, track: bool) -> Track
    ensures { result ≡ fresh_track n track }
{
    let mut posts = [blank(); MOST_POSTS as usize];
    let start = fresh_start(n, track);
    if start < MOST_POSTS {
        let i = start as usize;
        posts[i] = blank().permitted(true);
    }
    Track {
        posts,
        trains: [0; MOST_BLOCKS],
        last: [0; MOST_BLOCKS],
        cvt: false,
        walk: Walk::Settled,
    }
}

// Settings out of their ranges too give a section, which judging answers with 6.
#[tactic(auto, unfolding(crate::specs::Fresh::fresh_section))]
pub fn fresh(c: Settings) -> Section
    ensures { result ≡ fresh_section c }
{
    Section {
        settings: c,
        a: fresh_track(c.posts, false),
        b: fresh_track(c.posts, true),
    }
}
