// The line that judging takes: what the settings say of its posts and block sections.
ghost use Rattle.std.specs.Prelude.{◌≡◌};
ghost use Rattle.rules.specs.Line.{line_of, is_materialised};

use rules::Line;
use section::Settings;

// No `From`: both types are of other crates, and `rules`, where it could stand, has no code.
pub fn line_of(c: Settings) -> Line
    ensures { result ≡ line_of c }
{
    let crossings = c.crossings;
    Line {
        posts: c.posts,
        form: c.form,
        mask: c.mask,
        crossings,
    }
}

#[tactic(auto, unfolding(rules::specs::Line::is_materialised))]
pub fn is_materialised(c: Line) -> bool
    ensures { result ≡ is_materialised c }
{
    c.form == 1
}
