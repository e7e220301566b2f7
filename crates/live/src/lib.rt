// The calls on the live board, which is lent to them: each leaves its outcome there. A thin layer over the
// calls by value, with their promises. Each is of its own request and promise, so one generic function over
// them, with a trait for the request, would be no plainer.
// Admit, act and withdraw are written as the match that `?` stands for: crate lending walks that code.
#![tactic(auto)]

ghost use Rattle.board.specs.Answers.{done_answer};
ghost use Rattle.board.specs.Refusals.{answered, plainly_done};
ghost use Rattle.act.specs.ActsNow.{ActsNow};
ghost use Rattle.admit.specs.Admits.{Admits};
ghost use Rattle.do_duty.specs.Does.{Does};
ghost use Rattle.open.specs.Opens.{Opens};
ghost use Rattle.withdraw.specs.Withdraws.{Withdraws};

use board::{Board, Refusal, Serial};
use requests::{RequestAct, RequestAdmit, RequestDo, RequestWithdraw};

// Open a board file into the board: what the file says, or the smallest board where it is refused.
pub fn open(b: &mut Board, s: &[u8], list: &mut [u32]) -> Result<(), Refusal>
    ensures { Opens s.now list.old list.new
        (record { answer = answered plainly_done result; board = b.new }) }
{
    match open::open(s, list) {
        Ok(board) => {
            *b = board;
            Ok(())
        }
        Err(refusal) => {
            *b = Board::smallest();
            Err(refusal)
        }
    }
}

// Admit a duty, and answer its serial.
pub fn admit(b: &mut Board, list: &mut [u32], q: RequestAdmit) -> Result<Serial, Refusal>
    ensures { Admits b.old list.old q (answered (λ s. done_answer s.0) result) b.new list.new }
{
    match admit::admit(*b, list, q) {
        Ok(accepted) => {
            *b = accepted.board;
            Ok(accepted.serial)
        }
        Err(refusal) => Err(refusal),
    }
}

// Act now.
pub fn act(b: &mut Board, list: &mut [u32], q: RequestAct) -> Result<(), Refusal>
    ensures { ActsNow b.old list.old q (answered plainly_done result) b.new list.new }
{
    match act::act(*b, list, q) {
        Ok(accepted) => {
            *b = accepted.board;
            Ok(())
        }
        Err(refusal) => Err(refusal),
    }
}

// Do an open duty.
pub fn do_duty(b: &mut Board, q: RequestDo) -> Result<(), Refusal>
    ensures { Does b.old q (answered plainly_done result) b.new }
{
    let accepted = do_duty::do_duty(*b, q)?;
    *b = accepted.board;
    Ok(())
}

// Withdraw a duty.
pub fn withdraw(b: &mut Board, list: &mut [u32], q: RequestWithdraw) -> Result<(), Refusal>
    ensures { Withdraws b.old list.old q (answered plainly_done result) b.new list.new }
{
    match withdraw::withdraw(*b, list, q) {
        Ok(accepted) => {
            *b = accepted.board;
            Ok(())
        }
        Err(refusal) => Err(refusal),
    }
}
