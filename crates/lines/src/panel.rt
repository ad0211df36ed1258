// The lines of the panel.
ghost use Rattle.std.specs.Prelude.{true, ◌≡◌, ◌*◌, ◌<◌};
ghost use Rattle.section.specs.Range.{in_range};
ghost use Rattle.text.specs.Put.{HasRoom, put};
ghost use Rattle.lines.specs.PanelLine.{track_name, post_field, post_fields, panel_fields, panel_line_room};

use crate::put_number;
use indications::track::track_indications;
use section::{Indications, Section};
use text::Text;

// Puts what a post shows.
#[tactic(auto, unfolding(crate::specs::PanelLine::post_field))]
fn put_post(text: &mut Text, l: Indications)
    requires room { HasRoom text.old 6 }
    requires one_digit_each { (l.circulation < 10) × ((l.troncon < 10) × (l.permission < 10)) }
    ensures { text.new ≡ put text.old (post_field l) }
{
    text.put_text(&[
        b' ',
        b'0' + l.circulation,
        b'/',
        b'0' + l.troncon,
        b'/',
        b'0' + l.permission,
    ]);
}

// Puts what every post shows on a track.
#[tactic(auto, using(text::proofs::Put::first_none, crate::proofs::panel::Laws::one_digit_at, crate::proofs::panel::Laws::few_posts), unfolding(rules::specs::Indications::dark))]
fn put_posts(text: &mut Text, s: Section, track: u8)
    requires { HasRoom text.old (6 * s.settings.posts) × (in_range s ≡ true) }
    ensures { text.new ≡ put text.old (post_fields s track) }
{
    let shown = track_indications(s, track);
    for post in 0..s.settings.posts as usize {
        put_post(text, shown[post]);
    }
}

// The letter of a step's track.
#[tactic(auto, unfolding(crate::specs::PanelLine::track_name))]
fn track_name(track: u8) -> u8
    ensures { result ≡ track_name track }
{
    if track == 1 { b'B' } else { b'A' }
}

// Puts the line of a step.
#[tactic(auto, using(text::proofs::Put::texts, crate::proofs::panel::Laws::post_fields_length, crate::proofs::panel::Laws::few_posts), unfolding(crate::specs::PanelLine::panel_fields))]
pub fn put_panel(text: &mut Text, index: usize, track: u8, s: Section)
    requires { HasRoom text.old panel_line_room × (in_range s ≡ true) }
    ensures { text.new ≡ put text.old (panel_fields index track s) }
{
    put_number(text, index, b' ');
    text.put_byte(track_name(track));
    put_posts(text, s, track);
    text.put_byte(b'\n');
}
