// The lent calls run on a board by value: the board goes into a local, which is lent to the call, and what
// the call left in it is given back beside its result. So a program runs the lent calls without lending a
// board itself. Each lends a local of its own: one function over the call would need that call's promise as a
// parameter, and its contract would say less plainly what the five say here.
#![tactic(auto)]

ghost use Rattle.board.specs.Answers.{done_answer};
ghost use Rattle.board.specs.Refusals.{answered, plainly_done};
ghost use Rattle.act.specs.ActsNow.{ActsNow};
ghost use Rattle.admit.specs.Admits.{Admits};
ghost use Rattle.open.specs.Opens.{Opens};
ghost use Rattle.do_duty.specs.Does.{Does};
ghost use Rattle.withdraw.specs.Withdraws.{Withdraws};

use board::{Board, Refusal, Serial};
use requests::{RequestAct, RequestAdmit, RequestDo, RequestWithdraw};

// Open a board file into the board.
pub fn open(b: Board, s: &[u8], list: &mut [u32]) -> (Result<(), Refusal>, Board)
    ensures { Opens s.now list.old list.new
        (record { answer = answered plainly_done result.0; board = result.1 }) }
{
    let mut board = b;
    let opened = live::open(&mut board, s, list);
    (opened, board)
}

// Admit a duty, and answer its serial.
pub fn admit(b: Board, list: &mut [u32], q: RequestAdmit) -> (Result<Serial, Refusal>, Board)
    ensures { Admits b list.old q (answered (λ s. done_answer s.0) result.0) result.1 list.new }
{
    let mut board = b;
    let admitted = live::admit(&mut board, list, q);
    (admitted, board)
}

// Act now.
pub fn act(b: Board, list: &mut [u32], q: RequestAct) -> (Result<(), Refusal>, Board)
    ensures { ActsNow b list.old q (answered plainly_done result.0) result.1 list.new }
{
    let mut board = b;
    let acted = live::act(&mut board, list, q);
    (acted, board)
}

// Do an open duty.
pub fn do_duty(b: Board, q: RequestDo) -> (Result<(), Refusal>, Board)
    ensures { Does b q (answered plainly_done result.0) result.1 }
{
    let mut board = b;
    let done = live::do_duty(&mut board, q);
    (done, board)
}

// Withdraw a duty.
pub fn withdraw(b: Board, list: &mut [u32], q: RequestWithdraw) -> (Result<(), Refusal>, Board)
    ensures { Withdraws b list.old q (answered plainly_done result.0) result.1 list.new }
{
    let mut board = b;
    let withdrawn = live::withdraw(&mut board, list, q);
    (withdrawn, board)
}
