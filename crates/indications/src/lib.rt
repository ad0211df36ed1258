// What posts show: CIRCULATION, TRONÇON, start permission, read from the lamp table. Here a post; `track` has all posts of a track.

#![tactic(auto)]

mod index;
pub mod lamp_table;
pub mod rule;
pub mod track;

ghost use Rattle.std.specs.Prelude.{true, ◌≡◌, ◌<◌};
ghost use Rattle.section.specs.Range.{track_in_range};
ghost use Rattle.section.specs.Settings.{settings_in_range};
ghost use Rattle.rules.specs.Line.{line_of};
ghost use Rattle.rules.specs.Site.{site_on};
ghost use Rattle.rules.specs.Indications.{shown, lamps_at, dark, indications};
ghost use Rattle.rules.specs.LampTable.{lamp_table, taken_apart};
ghost use Rattle.site.specs.InItsRanges.{InItsRanges};

use index::index_at;
use lamp_table::{LampTable, look_up};
use section::{Indications, Section, Settings, Track, Trains};
use site::line::line_of;
use site::place::Place;
use site::running::{running_of, site};

#[tactic(auto, unfolding(rules::specs::LampTable::taken_apart))]
fn taken_apart(entry: u8) -> Indications
    ensures { result ≡ taken_apart entry }
{
    Indications {
        circulation: entry % 5,
        troncon: entry / 5 % 3,
        permission: entry / 15,
    }
}

// What the post of a site shows, read from the lent table.
#[tactic(auto, using(rules::proofs::LampTable::read_from_table))]
fn read_at(table: &LampTable, place: Place, trains: &Trains) -> Indications
    requires { (table.now ≡ lamp_table) × (InItsRanges place.line place.site) }
    ensures { result ≡ shown (lamps_at place.line place.site trains.now) }
{
    taken_apart(look_up(table, index_at(place, trains)))
}

// What a post of a track in its ranges shows.
#[tactic(auto, using(section::proofs::Laws::posts_right, site::proofs::running::Laws::in_its_ranges))]
fn post_indications(c: Settings, track: bool, post: u8, t: Track) -> Indications
    requires { (settings_in_range c ≡ true) × (track_in_range c.posts track t ≡ true) × (post < c.posts) }
    ensures { result ≡ shown (lamps_at (line_of c) (site_on track post t) t.trains) }
{
    let at = post as usize;
    let place = Place {
        line: line_of(c),
        site: site(track, post, t.posts[at], running_of(&t)),
    };
    read_at(&lamp_table::table(), place, &t.trains)
}

#[tactic(auto, unfolding(rules::specs::Indications::dark))]
fn all_dark() -> Indications
    ensures { result ≡ dark }
{
    Indications {
        circulation: 0,
        troncon: 0,
        permission: 0,
    }
}

// What a post shows on a track; all 0 for a state that gives 6, and for a track or a post that the section has not.
#[tactic(auto, using(section::proofs::Told::told_false, section::proofs::Told::told_true, section::proofs::Laws::settings_in_range_lem, section::proofs::Laws::track_in_range_lem, crate::proofs::Laws::dark_out, crate::proofs::Laws::dark_track, crate::proofs::Laws::dark_post, crate::proofs::Laws::on_track_is))]
pub fn indications(s: Section, track: u8, post: u8) -> Indications
    ensures { result ≡ indications s track post }
{
    if !ranges::in_range(s) {
        return all_dark();
    }
    if track >= 2 {
        return all_dark();
    }
    let c = s.settings;
    if post >= c.posts {
        return all_dark();
    }
    if track == 1 {
        return post_indications(c, true, post, s.b);
    }
    post_indications(c, false, post, s.a)
}
