// One duty d and all those that set a holding.
ghost use Rattle.std.specs.Prelude.{◌≡◌, List, map, ◌≤◌, length, take};
ghost use Rattle.board.specs.declared.Duty.{Duty};
ghost use Rattle.board.specs.Limits.{max_duties};
ghost use Rattle.quick_criterion.specs.Mends.{last_minute, first_mend};
ghost use Rattle.troubles.specs.Setting.{setter_of};
ghost use Rattle.troubles.specs.Weighing.{Weighed};

use crate::pairs::{Reach, makes_wrong, reach_with};
use crate::setting::Setter;
use asks::Ask;
use board::{Board, Duty, Serial};

// What the duties that set a holding can make of the sets of d's doer and target; or the serial of the first
// that makes a need of d wrong. `users` are their users, and `mends` the earliest ends of the duties that
// mend what they spoil. They stand beside the setters, so that a setter that concerns nobody is not read.
pub(crate) fn weigh(
    setters: &[Setter],
    users: &[u16; Board::DUTIES],
    mends: &[u32; Board::DUTIES],
    d: &Duty,
    ask: &Ask,
    holdings: &[u32; Board::USERS],
) -> Result<Reach, Serial>
    requires few { length setters.now ≤ max_duties }
    requires users { take (length setters.now) users.now ≡ map (λ x. x.user) setters.now }
    ensures { (setting mending : List Duty) → setters.now ≡ map setter_of setting
        → take (length setters.now) mends.now ≡ map (λ x. first_mend x last_minute mending) setting
        → Weighed holdings.now d.now ask.now setting mending result }
{
    let actor = roles::with_role(0, ask.actor);
    let own = permitted::held_by(holdings, d.doer);
    let theirs = permitted::held_by(holdings, ask.target);
    let mut reach = Reach {
        own,
        most: theirs,
        least: theirs,
    };
    for (k, x) in setters.iter().enumerate() {
        let user = users[k];
        if (user == d.doer) | (user == ask.target) {
            reach = reach_with(reach, *x, *d, *ask);
            if makes_wrong(*x, mends[k], *d, *ask, actor) {
                return Err(x.serial);
            }
        }
    }
    Ok(reach)
}
