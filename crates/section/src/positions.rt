// Positions on a track, and which posts are signalled. n, the way and the post are parameters and no struct: the definitions take them one by one, so
// that a struct would be no plainer.
ghost use Rattle.std.specs.Prelude.{◌≡◌, ◌+◌, ◌<◌};
ghost use Rattle.section.specs.Numbers.{most_posts};
ghost use Rattle.section.specs.Geometry.{upward, rank, block, is_first, is_last};
ghost use Rattle.section.specs.Settings.{is_signalled};

// Whether trains run upward: on A in VNS, on B in CVT.
#[tactic(auto, unfolding(crate::specs::Geometry::upward))]
pub fn is_upward(track: bool, cvt: bool) -> bool
    ensures { result ≡ upward track cvt }
{
    track == cvt
}

// A post's distance from the sending end, in posts; also the post at that distance.
#[tactic(auto, unfolding(crate::specs::Geometry::rank))]
pub fn rank(n: u8, up: bool, p: u8) -> u8
    requires { p < n }
    ensures { result ≡ rank n up p }
{
    if up { p } else { n - 1 - p }
}

// The block section that follows the post of rank j.
#[tactic(auto, unfolding(crate::specs::Geometry::block))]
pub fn block(n: u8, up: bool, j: u8) -> u8
    requires { j + 1 < n }
    ensures { result ≡ block n up j }
{
    if up { j } else { n - 2 - j }
}

// The sending end.
#[tactic(auto, unfolding(crate::specs::Geometry::is_first))]
pub fn is_first(n: u8, up: bool, p: u8) -> bool
    requires { p < n }
    ensures { result ≡ is_first n up p }
{
    rank(n, up, p) == 0
}

// The receiving end.
pub fn is_last(n: u8, up: bool, p: u8) -> bool
    requires { p < n }
    ensures { result ≡ is_last n up p }
{
    rank(n, up, p) + 1 == n
}

// Whether post p is signalled: bit p of the mask.
pub fn is_signalled(mask: u16, p: u8) -> bool
    requires { p < most_posts }
    ensures { result ≡ is_signalled mask p }
{
    (mask >> p) & 1 == 1
}
