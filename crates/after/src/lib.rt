// The board after an act, after a duty is taken out, and after a duty is done: nothing else changes. Each is
// made at once, field by field: a board that is first copied and then changed is copied twice.
#![tactic(auto)]

ghost use Rattle.std.specs.Prelude.{◌≡◌};
ghost use Rattle.after.specs.Boards.{acted_board, withdrawn_board, did_board};

use board::{Board, Counts, Serial, What};
use pool::Rest;

// The board with the change made that this makes, at the clock.
pub fn acted(b: Board, clock: u32, what: What) -> Board
    ensures { result ≡ acted_board b clock what }
{
    let mut holdings = b.holdings;
    permitted::make_change(&mut holdings, what);
    Board {
        clock,
        holdings,
        ..b
    }
}

// The board without the duty with the serial, at the clock.
pub fn withdrawn(b: Board, clock: u32, serial: Serial) -> Board
    ensures { result ≡ withdrawn_board b clock serial.0 }
{
    let Rest { duties, count } = pool::without_serial(b.duties(), serial);
    let counts = Counts {
        duties: count,
        ..b.counts
    };
    Board {
        counts,
        clock,
        duties,
        ..b
    }
}

// The board without the duty with the serial and with the change made that this makes, at the clock.
pub fn did(b: Board, clock: u32, serial: Serial, what: What) -> Board
    ensures { result ≡ did_board b clock serial.0 what }
{
    let Rest {
        duties: others,
        count: left,
    } = pool::without_serial(b.duties(), serial);
    let mut held = b.holdings;
    permitted::make_change(&mut held, what);
    Board {
        counts: Counts {
            duties: left,
            ..b.counts
        },
        clock,
        holdings: held,
        duties: others,
        ..b
    }
}
