// What the checks ask, apart from the trains.
ghost use Rattle.std.specs.Prelude.{◌||◌, ◌≡◌};
ghost use Rattle.rules.specs.Site.{is_settled, is_turn, at_sending_end, at_receiving_end};
ghost use Rattle.rules.specs.Table.{order_allowed, release_in_turn, measures_suffice, fault1_confirmed};

use crate::place::Place;
use rules::Site;
use section::{Act, Walk};

pub fn is_settled(walk: Walk) -> bool
    ensures { result ≡ is_settled walk }
{
    walk == Walk::Settled
}

// It is post p's turn for the act.
pub fn is_turn(walk: Walk, p: u8, act: Act) -> bool
    ensures { result ≡ is_turn walk p act }
{
    walk == Walk::Turn(p, act)
}

impl Place {
    // 12 of pass: an end post.
    pub fn at_end(self) -> bool
        ensures { result ≡ (at_sending_end self.line self.site || at_receiving_end self.line self.site) }
    {
        self.at_sending_end() || self.at_receiving_end()
    }

    // 15 of release.
    pub fn release_in_turn(self) -> bool
        ensures { result ≡ release_in_turn self.line self.site }
    {
        let walk = self.site.walk;
        is_turn(walk, self.site.post, Act::Set) || (is_settled(walk) && self.at_sending_end())
    }

    // 18: fault 1 is confirmed by a mark; at a post that commands no part it counts for nothing.
    pub fn fault1_confirmed(self) -> bool
        ensures { result ≡ fault1_confirmed self.line self.site }
    {
        !self.commands() || !self.site.own.faults.one || self.site.own.mark
    }
}

// 14: an order to CVT needs the other track settled on VNS.
pub fn order_allowed(e: Site, other_on_vns: bool) -> bool
    ensures { result ≡ order_allowed e other_on_vns }
{
    e.cvt || other_on_vns
}

// 16: a device goes to CVT with measures only.
pub fn measures_suffice(e: Site) -> bool
    ensures { result ≡ measures_suffice e }
{
    e.cvt || e.own.measures
}
