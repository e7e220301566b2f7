// Do an open duty of the live board now, by value.
#![tactic(auto)]

ghost use Rattle.board.specs.Answers.{Answers};
ghost use Rattle.board.specs.Refusals.{number_answered};
ghost use Rattle.outcomes.specs.Outcomes.{answer_of, board_left};
ghost use Rattle.do_duty.specs.Does.{Does};
ghost use Rattle.do_duty.specs.Inside.{time_checks};

use board::{Board, Duty, Refusal, Serial};
use outcomes::Accepted;
use requests::RequestDo;

// What the windows say of the duty d among the open duties: 13, 14.
#[tactic(auto, using(crate::proofs::Doing::answers_13, crate::proofs::Doing::answers_14, crate::proofs::Doing::in_time))]
fn in_time(duties: &[Duty], d: Duty, clock: u32) -> Result<(), Refusal>
    ensures { Answers (time_checks duties.now d clock) (number_answered result) }
{
    if !windows::in_window(clock, d) {
        return Err(Refusal::Outside);
    }
    if pool::is_held_back(duties, d) {
        return Err(Refusal::HeldBack);
    }
    Ok(())
}

// Do: 19, 10, 12, 13, 14, 15. It has no lent list, so its room is what the other calls ask for.
pub fn do_duty(b: Board, q: RequestDo) -> Result<Accepted, Refusal>
    ensures { Does b q (answer_of result) (board_left b result) }
{
    outcomes::ready(&b, Board::DUTIES, q.clock)?;
    let duties = b.duties();
    let Some(d) = pool::with_serial(duties, q.serial) else {
        return Err(Refusal::NotOpen);
    };
    in_time(duties, d, q.clock)?;
    if !permitted::permitted(&b, d.doer, d.what) {
        return Err(Refusal::NotPermitted);
    }
    let board = after::did(b, q.clock, q.serial, d.what);
    let serial = Serial(0);
    Ok(Accepted { board, serial })
}
