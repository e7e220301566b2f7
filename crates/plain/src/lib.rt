// A plain walk of every order, for pools of at most 8 duties: a second engine beside the quick verdict. It
// does each duty that may come next, lower serials first, and then walks the rest in the same way.
#![tactic(auto)]

ghost use Rattle.std.specs.Prelude.{◌≡◌, ◌+◌, ◌≤◌, set};
ghost use Rattle.board.specs.Limits.{max_duties};
ghost use Rattle.board.specs.Refusals.{answered, plainly_done};
ghost use Rattle.plain.specs.Walks.{Walks};
ghost use Rattle.plain.specs.Walking.{walked, told};

use board::{Board, Refusal, Serial};

// A pool of more duties is not walked.
pub const MOST: usize = 8;

// Put a serial into the list at a place. Nothing stands beyond its end. A write through `get_mut` says
// nothing of the list once the loan is over, so the place is tested.
fn put(list: &mut [u32], at: usize, serial: Serial)
    ensures { list.new ≡ set list.old at serial.0 }
{
    if at < list.len() {
        list[at] = serial.0;
    }
}

// Walk the duties that are left, from the holdings of the board. Where an order fails, the serials of the
// first such order stand in the list from place `at` on, and the place behind them is answered.
fn walk_rest(b: &Board, left: usize, at: usize, list: &mut [u32]) -> Option<usize>
    requires { at + left ≤ max_duties }
    ensures { (result, list.new) ≡ told at list.old (walked left b.now) }
{
    if left == 0 {
        return None;
    }
    let duties = b.duties();
    for d in duties {
        if !pool::is_held_back(duties, *d) {
            let found = if permitted::permitted(b, d.doer, d.what) {
                let rest = after::did(*b, b.clock, d.serial, d.what);
                walk_rest(&rest, left - 1, at + 1, list)
            } else {
                Some(at + 1)
            };
            if let Some(end) = found {
                put(list, at, d.serial);
                return Some(end);
            }
        }
    }
    None
}

// Walk every order of a board: 19, 9, 22, 8. It only reads the board.
pub fn walk(b: Board, list: &mut [u32]) -> Result<(), Refusal>
    ensures { Walks b list.old list.new (answered plainly_done result) }
{
    if !values::is_good(b) {
        return Err(Refusal::Broken);
    }
    if list.len() < Board::DUTIES {
        return Err(Refusal::List);
    }
    let n = b.duties().len();
    if MOST < n {
        return Err(Refusal::Many);
    }
    match walk_rest(&b, n, 0, list) {
        Some(length) => Err(Refusal::Red { length }),
        None => Ok(()),
    }
}
