// Document 01's small boards 12 to 14: the calls in turn, each with its answer, what user 1 holds from then
// on, and how many duties are open.
use crate::wanted::Wanted;
use board::{Refusal, Serial};
use requests::{RequestAct, RequestAdmit, RequestDo, RequestWithdraw};

// What a step asks for.
#[derive(Clone, Copy)]
pub(crate) enum Ask {
    Admit(RequestAdmit),
    Act(RequestAct),
    Do(RequestDo),
    Withdraw(RequestWithdraw),
}

// A step and what document 01 says of it.
#[derive(Clone, Copy)]
pub(crate) struct Step {
    pub ask: Ask,
    pub wanted: Wanted,
}

// ---- what is asked

fn doing(serial: u32, clock: u32) -> Ask {
    Ask::Do(RequestDo {
        serial: Serial(serial),
        clock,
    })
}

fn withdrawing(serial: u32, clock: u32) -> Ask {
    Ask::Withdraw(RequestWithdraw {
        serial: Serial(serial),
        clock,
    })
}

// User 0 revokes role 1 from user 1.
fn revoking(clock: u32) -> Ask {
    Ask::Act(RequestAct {
        doer: 0,
        action: 1,
        first: 1,
        second: 1,
        clock,
    })
}

// User 0 is to grant role 1 to user 1.
fn admitting(start: u32, end: u32, clock: u32) -> Ask {
    Ask::Admit(RequestAdmit {
        doer: 0,
        action: 0,
        first: 1,
        second: 1,
        start,
        end,
        clock,
    })
}

// ---- the steps

fn stepping(ask: Ask, wanted: Wanted) -> Step {
    Step { ask, wanted }
}

// 12: case 2, calls in turn.
pub(crate) fn in_turn() -> [Step; 8] {
    [
        stepping(doing(2, 13), Wanted::refused(Refusal::HeldBack, 0, 2)),
        stepping(doing(1, 6), Wanted::refused(Refusal::Outside, 0, 2)),
        stepping(doing(1, 8), Wanted::done(2, 1)),
        stepping(doing(1, 8), Wanted::refused(Refusal::NotOpen, 2, 1)),
        stepping(revoking(10), Wanted::red(&[2], 2, 1)),
        stepping(doing(2, 9), Wanted::refused(Refusal::Outside, 2, 1)),
        stepping(doing(2, 7), Wanted::refused(Refusal::Clock, 2, 1)),
        stepping(doing(2, 20), Wanted::done(2, 0)),
    ]
}

// 13: case 2, withdraw 1, and withdraw 2.
pub(crate) fn withdrawn() -> [Step; 2] {
    [
        stepping(withdrawing(1, 0), Wanted::red(&[2], 0, 2)),
        stepping(withdrawing(2, 0), Wanted::done(0, 1)),
    ]
}

// 14: case 1, admit a grant whose window is over, and one whose window ends at the clock.
pub(crate) fn admitted() -> [Step; 2] {
    [
        stepping(admitting(1, 3, 10), Wanted::refused(Refusal::Over, 0, 0)),
        stepping(admitting(1, 10, 10), Wanted::admitted(1, 0, 1)),
    ]
}
