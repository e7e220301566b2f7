// Poke: one number of the live board is set, for tests of 19 and of red boards. A place past the array, and a
// first that names no number, change nothing. The numbers of `first` are those of the record's bytes, and
// stand here alone.
ghost use Rattle.std.specs.Prelude.{◌≡◌, ◌%◌};
ghost use Rattle.session.specs.Pokes.{poked_board};

use crate::Record;
use board::{Board, Serial};

// A value cut to two bytes: no cast may lose bits, so it says what it keeps.
fn low(value: u32) -> u16
    ensures { result ≡ value % 65536 }
{
    (value % 65536) as u16
}

// The board with the number set that first and second of the record name, to its extra.
#[tactic(auto, using(crate::proofs::Putting::same_entry), unfolding(crate::specs::Pokes::poked_board))]
pub fn poked(b: Board, r: Record) -> Board
    ensures { result ≡ poked_board b r }
{
    let mut b = b;
    let at = r.second as usize;
    let value = r.extra;
    match r.first {
        0 => b.counts.users = low(value),
        1 => b.counts.roles = low(value),
        2 => b.counts.permissions = low(value),
        3 => b.counts.rules = low(value),
        4 => b.counts.duties = low(value),
        5 => b.clock = value,
        6 => b.next = Serial(value),
        7 if at < Board::USERS => b.holdings[at] = value,
        8 if at < Board::PERMISSIONS => b.permissions[at].role = low(value),
        9 if at < Board::RULES => b.rules[at].wanted = value,
        10 if at < Board::DUTIES => b.duties[at].start = value,
        11 if at < Board::DUTIES => b.duties[at].end = value,
        12 if at < Board::DUTIES => b.duties[at].serial = Serial(value),
        13 if at < Board::DUTIES => b.duties[at].doer = low(value),
        _ => {}
    }
    b
}
