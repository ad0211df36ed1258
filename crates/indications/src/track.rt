// What every post of a track shows, in a section whose ranges hold.
ghost use Rattle.std.specs.Prelude.{◌≡◌, true, replicate};
ghost use Rattle.section.specs.Items.{items};
ghost use Rattle.section.specs.Numbers.{most_posts};
ghost use Rattle.section.specs.Range.{in_range, track_in_range};
ghost use Rattle.section.specs.Settings.{settings_in_range};
ghost use Rattle.rules.specs.Indications.{dark, track_indications};
ghost use Rattle.indications.specs.OnTrack.{indications_at};

use crate::{all_dark, lamp_table, read_at};
use section::{Indications, MOST_POSTS, Section, Settings, Track};
use site::line::line_of;
use site::place::Place;
use site::running::{running_of, site};

// Posts 0 to 15.
pub type PostsShown = [Indications; MOST_POSTS as usize];

// The posts of a track, those that it has not dark. Line and table are made once.
#[tactic(auto, using(section::proofs::Laws::posts_right, site::proofs::running::Laws::in_its_ranges, crate::proofs::track::Laws::none_yet, crate::proofs::track::Laws::one_more))]
fn posts_of(c: Settings, track: bool, t: Track) -> PostsShown
    requires { (settings_in_range c ≡ true) × (track_in_range c.posts track t ≡ true) }
    ensures { result ≡ items (indications_at c track t) most_posts }
{
    let table = lamp_table::table();
    let line = line_of(c);
    let running = running_of(&t);
    let mut filled = all_posts_dark();
    for p in 0..c.posts {
        let at = p as usize;
        let place = Place {
            line,
            site: site(track, p, t.posts[at], running),
        };
        filled[at] = read_at(&table, place, &t.trains);
    }
    filled
}

// Every post dark, as in a state that gives 6.
pub fn all_posts_dark() -> PostsShown
    ensures { result ≡ replicate most_posts dark }
{
    [all_dark(); MOST_POSTS as usize]
}

// All dark on a track that the section has not.
#[tactic(auto, using(section::proofs::Laws::settings_in_range_lem, section::proofs::Laws::track_in_range_lem, crate::proofs::track::Laws::dark_track, crate::proofs::track::Laws::by_track))]
pub fn track_indications(s: Section, track: u8) -> PostsShown
    requires { in_range s ≡ true }
    ensures { result ≡ track_indications s track }
{
    if track >= 2 {
        return all_posts_dark();
    }
    let c = s.settings;
    if track == 1 {
        let b = s.b;
        return posts_of(c, true, b);
    }
    let a = s.a;
    posts_of(c, false, a)
}
