// What an accepted call on the live board gives back, by value, and the board that a call leaves; what the
// calls with a lent list test first; and the board after a call judged, for 8.
#![tactic(auto)]

ghost use Rattle.std.specs.Prelude.{◌≡◌, true};
ghost use Rattle.board.specs.declared.Board.{Board};
ghost use Rattle.board.specs.Answers.{Answers};
ghost use Rattle.board.specs.Good.{good};
ghost use Rattle.board.specs.Refusals.{number_answered};
ghost use Rattle.outcomes.specs.Outcomes.{board_left, ready_checks, Judges};

use board::{Board, Refusal, Serial};

// The board after the call, and the serial of the duty that was admitted, 0 where none was. A call that is
// refused leaves the board given.
#[derive(Clone, Copy)]
pub struct Accepted {
    pub board: Board,
    pub serial: Serial,
}

// b is the board that a call was given. Where the call was accepted the board after it is put there, else b
// stays.
pub fn leave(b: &mut Board, called: &Result<Accepted, Refusal>)
    ensures { b.new ≡ board_left b.old called.now }
{
    match called {
        Ok(accepted) => *b = accepted.board,
        Err(_) => {}
    }
}

// What admit, act and withdraw test first: 19, 9, 10.
pub fn ready(b: &Board, room: usize, clock: u32) -> Result<(), Refusal>
    ensures { Answers (ready_checks b.now room clock) (number_answered result) }
{
    if !values::is_good_lent(b) {
        return Err(Refusal::Broken);
    }
    if room < Board::DUTIES {
        return Err(Refusal::List);
    }
    if clock < b.clock {
        return Err(Refusal::Clock);
    }
    Ok(())
}

// Judge the board after a call, which is good: where it is green the call is accepted, with this serial; else
// it is refused, whatever the board b was that it was given.
#[tactic(auto, using(crate::proofs::Judging::judged_refused, crate::proofs::Judging::judged_accepted))]
pub fn judged(after: Board, serial: Serial, list: &mut [u32]) -> Result<Accepted, Refusal>
    ensures { (b : Board) → good after ≡ true → Judges b after serial.0 list.old list.new result }
{
    verdict::check_good(after, list)?;
    Ok(Accepted {
        board: after,
        serial,
    })
}
