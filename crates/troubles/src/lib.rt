// What makes a board red, by the quick criterion (crate orders, specs/Criterion). For each duty d one pass
// over the duties that set a holding tells whether each need of d is right now or set right by some duty
// wholly before it (a), and whether another duty x, that d is not wholly before, makes a need of d wrong,
// with no duty between the two that mends it (b).
#![tactic(auto)]

mod pairs;
mod setting;
mod weigh;

ghost use Rattle.std.specs.Prelude.{take, min, length};
ghost use Rattle.board.specs.Limits.{max_duties};
ghost use Rattle.troubles.specs.Troubles.{Troubled};

use asks::Ask;
use board::{Board, Duty, Serial};
use pairs::can_be_met;
use setting::{LAST_MINUTE, mends_of, setters_of, users_of};
use weigh::weigh;

// What makes a board red: the serial of the duty that gets stuck, and of the one that spoils it (the same,
// where the duty cannot be met at all).
#[derive(Clone, Copy)]
pub struct Trouble {
    pub spoiler: Serial,
    pub stuck: Serial,
}

// What makes a board red with these holdings: the duties, so many as a board has room for, and what is asked
// for each. The table of mends is made where a setter first spoils a need, and that duty is judged again;
// many boards need none.
pub fn trouble_of(
    duties: &[Duty],
    asks: &[Option<Ask>; Board::DUTIES],
    holdings: &[u32; Board::USERS],
) -> Option<Trouble>
    ensures { Troubled holdings.now (take (min (length duties.now) max_duties) duties.now) asks.now
        result }
{
    let n = duties.len().min(Board::DUTIES);
    let gathered = setters_of(&duties[..n]);
    let setters = &gathered.all[..gathered.count];
    let users = users_of(setters);
    // Until the table is made nothing mends, since nothing starts after the last minute. It is made late,
    // since many boards need none: by docs/SPEED.md that takes a quarter off a check of them.
    let unmended = [LAST_MINUTE; Board::DUTIES];
    let mut mends: Option<[u32; Board::DUTIES]> = None;
    for (i, d) in duties[..n].iter().enumerate() {
        let stuck = d.serial;
        let unmet = Trouble {
            spoiler: stuck,
            stuck,
        };
        let Some(ask) = asks[i] else {
            return Some(unmet);
        };
        let reach = loop {
            let table = mends.as_ref().unwrap_or(&unmended);
            match weigh(setters, &users, table, d, &ask, holdings) {
                Ok(reach) => break reach,
                Err(spoiler) => {
                    if mends.is_some() {
                        return Some(Trouble { spoiler, stuck });
                    }
                }
            }
            mends = Some(mends_of(setters));
        };
        if !can_be_met(reach, ask) {
            return Some(unmet);
        }
    }
    None
}
