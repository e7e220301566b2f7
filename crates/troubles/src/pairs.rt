// One duty d and one that sets: whether it makes a need of d wrong, and what it can give or take before d.
ghost use Rattle.std.specs.Prelude.{◌≡◌, true, ◌||◌, List, eqb};
ghost use Rattle.roles.specs.Roles.{with_role};
ghost use Rattle.board.specs.declared.Duty.{Duty};
ghost use Rattle.troubles.specs.Setting.{setter_of, is_against};
ghost use Rattle.quick_criterion.specs.Mends.{last_minute, first_mend};
ghost use Rattle.quick_criterion.specs.Tests.{makes_wrong};
ghost use Rattle.troubles.specs.Reaching.{reach_with, met_with};

use crate::setting::Setter;
use asks::Ask;
use board::Duty;

// What the duties wholly before one can make of the sets of two users: the doer's and the target's with every
// role that they grant, and the target's without every role that they revoke.
#[derive(Clone, Copy)]
pub(crate) struct Reach {
    pub own: u32,
    pub most: u32,
    pub least: u32,
}

// Whether what x sets is the opposite of what is asked of the doer and the target.
fn is_against(x: Setter, doer: u16, ask: Ask, actor: u32) -> bool
    ensures { result ≡ is_against doer actor ask x.user x.grants x.revokes }
{
    if (x.user == doer) & (x.revokes & actor != 0) {
        return true;
    }
    if x.user != ask.target {
        return false;
    }
    (x.revokes & ask.wanted) | (x.grants & ask.barred) != 0
}

// Whether x makes a need of d wrong, where `mend` is the earliest end of a duty that mends what x sets, and
// `actor` the role that the doer is to hold, as a set.
pub(crate) fn makes_wrong(x: Setter, mend: u32, d: Duty, ask: Ask, actor: u32) -> bool
    requires { actor ≡ with_role 0 ask.actor }
    ensures { (y : Duty) (l : List Duty) → x ≡ setter_of y → mend ≡ first_mend y last_minute l
        → result ≡ makes_wrong l d (Some ask) y }
{
    if d.end < x.start {
        return false;
    }
    if mend < d.start {
        return false;
    }
    // Compared as numbers: with the derived comparison of serials the proof did not close.
    let serial = d.serial;
    let other = x.serial;
    if other.0 == serial.0 {
        return false;
    }
    is_against(x, d.doer, ask, actor)
}

// What is in reach of the duties so far and x, where x is wholly before d. It is asked only of an x that sets
// the doer or the target.
pub(crate) fn reach_with(reach: Reach, x: Setter, d: Duty, ask: Ask) -> Reach
    requires { eqb x.user d.doer || eqb x.user ask.target ≡ true }
    ensures { (y : Duty) → x ≡ setter_of y → result ≡ reach_with d ask reach y }
{
    if d.start <= x.end {
        return reach;
    }
    let most = reach.most | x.grants;
    let least = (reach.least | x.revokes) ^ x.revokes;
    let own = reach.own | x.grants;
    if x.user != ask.target {
        return Reach {
            own,
            most: reach.most,
            least: reach.least,
        };
    }
    if x.user != d.doer {
        return Reach {
            own: reach.own,
            most,
            least,
        };
    }
    Reach { own, most, least }
}

// Whether what is asked can be met with what is in reach.
pub(crate) fn can_be_met(reach: Reach, ask: Ask) -> bool
    ensures { result ≡ met_with reach ask }
{
    roles::holds(reach.own, ask.actor)
        & (permitted::meets(reach.most, ask.wanted, 0)
            & permitted::meets(reach.least, 0, ask.barred))
}
