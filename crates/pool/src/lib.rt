// The open duties: the one with a serial, whether one is wholly before a duty, and those that are left when
// one is taken out.
#![tactic(auto)]

ghost use Rattle.std.specs.Prelude.{◌≡◌, length, take};
ghost use Rattle.orders.specs.Lists.{any, find};
ghost use Rattle.board.specs.After.{named, without_serial};
ghost use Rattle.board.specs.Filler.{no_duty};
ghost use Rattle.board.specs.Limits.{max_duties};
ghost use Rattle.board.specs.Saying.{padded};
ghost use Rattle.board.specs.Windows.{wholly_before};

use board::{Board, Duty, Serial};

// Duties at the start of the room, their number, and filler in the rest. The room is of fixed size: what
// makes it cannot fail, so it allocates nothing.
#[derive(Clone, Copy)]
pub struct Rest {
    pub duties: [Duty; Board::DUTIES],
    pub count: u16,
}

// The duty with the serial.
pub fn with_serial(duties: &[Duty], serial: Serial) -> Option<Duty>
    ensures { result ≡ find (named serial.0) duties.now }
{
    duties.iter().copied().find(|d| d.serial == serial)
}

// Whether one of the duties is wholly before d.
pub fn is_held_back(duties: &[Duty], d: Duty) -> bool
    ensures { result ≡ any (λ y. wholly_before y d) duties.now }
{
    duties.iter().any(|y| windows::wholly_before(*y, d))
}

// Of the duties, as many as the room holds, those but the one with the serial, closed up; the rest of the
// room is filler.
pub fn without_serial(duties: &[Duty], serial: Serial) -> Rest
    ensures { (result.duties
        ≡ padded no_duty max_duties (without_serial serial.0 (take max_duties duties.now)))
        × (result.count ≡ length (without_serial serial.0 (take max_duties duties.now))) }
{
    let mut left = [Duty::filler(); Board::DUTIES];
    let mut count: u16 = 0;
    let few = &duties[..duties.len().min(Board::DUTIES)];
    for d in few {
        if d.serial != serial {
            left[count as usize] = *d;
            count += 1;
        }
    }
    Rest {
        duties: left,
        count,
    }
}
