// Where stretches and parts end, and which posts command a part.
ghost use Rattle.std.specs.Prelude.{◌≡◌, ◌<◌, ◌≤◌};
ghost use Rattle.section.specs.Numbers.{most_posts};
ghost use Rattle.rules.specs.Site.{commands};
ghost use Rattle.site.specs.Ends.{ends_at_rank};

use crate::line::is_materialised;
use crate::place::Place;
use rules::Line;
use section::positions;

// Whether a stretch or a part ends at the post of rank j. The rank of a rank is the post. `signalled_only` is no switch over steps to run: it says, as
// the definition does, of which posts one is asked.
#[tactic(auto, using(crate::proofs::place::Laws::rank_below))]
pub fn ends_at(c: Line, signalled_only: bool, up: bool, j: u8) -> bool
    requires { (j < c.posts) × (c.posts ≤ most_posts) }
    ensures { result ≡ ends_at_rank c signalled_only up j }
{
    !signalled_only || positions::is_signalled(c.mask, positions::rank(c.posts, up, j))
}

impl Place {
    // The post commands a part.
    #[tactic(auto, using(crate::proofs::place::Laws::rank_on_the_line), unfolding(rules::specs::Site::commands, rules::specs::Site::part_ends))]
    pub fn commands(self) -> bool
        ensures { result ≡ commands self.line self.site }
    {
        !self.at_receiving_end()
            && ends_at(
                self.line,
                is_materialised(self.line),
                self.is_upward(),
                self.rank(),
            )
    }
}
