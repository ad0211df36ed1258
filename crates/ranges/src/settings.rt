// Whether settings are in their ranges: refusal 3.
ghost use Rattle.std.specs.Prelude.{◌≡◌, ◌≤◌};
ghost use Rattle.section.specs.Numbers.{most_posts};
ghost use Rattle.section.specs.Settings.{none_from, settings_in_range};

use crate::crossings::crossings_in_range;
use section::positions::is_signalled;
use section::{LARGEST_LINE, LEAST_POSTS, MOST_POSTS, Settings};

// No bit at n or above. (At 16 bits a shift by 16 is an error, so the mask is widened.)
#[tactic(auto, unfolding(section::specs::Settings::none_from))]
fn none_from(mask: u16, n: u8) -> bool
    requires { n ≤ most_posts }
    ensures { result ≡ none_from mask n }
{
    u32::from(mask) >> n == 0
}

#[tactic(auto, unfolding(section::specs::Settings::settings_in_range, section::specs::Bytes::within))]
pub fn settings_in_range(c: Settings) -> bool
    ensures { result ≡ settings_in_range c }
{
    let n = c.posts;
    (LEAST_POSTS..=MOST_POSTS).contains(&n)
        && c.form <= 1
        && is_signalled(c.mask, 0)
        && is_signalled(c.mask, n - 1)
        && none_from(c.mask, n)
        && (1..=LARGEST_LINE).contains(&c.line)
        && crossings_in_range(n, &c.crossings)
}
