// Where a site stands in the running direction, and the block sections beside it.
ghost use Rattle.std.specs.Prelude.{◌≡◌, ◌<◌};
ghost use Rattle.section.specs.Numbers.{most_blocks};
ghost use Rattle.rules.specs.Site.{up_at, rank_at, at_sending_end, at_receiving_end, block_ahead, block_before};
ghost use Rattle.site.specs.OnTheLine.{OnTheLine, HasAhead, HasBefore};

use rules::{Line, Site};
use section::positions;

// A site that stands on its line.
#[derive(Clone, Copy)]
pub struct Place {
    pub line: Line,
    pub site: Site,
    pub ghost on_the_line: { OnTheLine line site },
}

impl Place {
    pub fn is_upward(self) -> bool
        ensures { result ≡ up_at self.line self.site }
    {
        positions::is_upward(self.site.track, self.site.cvt)
    }

    pub fn rank(self) -> u8
        ensures { result ≡ rank_at self.line self.site }
    {
        positions::rank(self.line.posts, self.is_upward(), self.site.post)
    }

    pub fn at_sending_end(self) -> bool
        ensures { result ≡ at_sending_end self.line self.site }
    {
        positions::is_first(self.line.posts, self.is_upward(), self.site.post)
    }

    pub fn at_receiving_end(self) -> bool
        ensures { result ≡ at_receiving_end self.line self.site }
    {
        positions::is_last(self.line.posts, self.is_upward(), self.site.post)
    }

    // The block section ahead of the post.
    #[tactic(auto, using(crate::proofs::place::Laws::ahead_lt))]
    pub fn block_ahead(self) -> usize
        requires { HasAhead self.line self.site }
        ensures { (result ≡ block_ahead self.line self.site) × (result < most_blocks) }
    {
        positions::block(self.line.posts, self.is_upward(), self.rank()) as usize
    }

    // The block section before the post.
    #[tactic(auto, using(crate::proofs::place::Laws::before_has, crate::proofs::place::Laws::before_lt))]
    pub fn block_before(self) -> usize
        requires { HasBefore self.line self.site }
        ensures { (result ≡ block_before self.line self.site) × (result < most_blocks) }
    {
        positions::block(self.line.posts, self.is_upward(), self.rank() - 1) as usize
    }
}
