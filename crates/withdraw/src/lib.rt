// Withdraw a duty from the live board, by value.
#![tactic(auto)]

ghost use Rattle.board.specs.Answers.{Answers};
ghost use Rattle.board.specs.Refusals.{number_answered};
ghost use Rattle.outcomes.specs.Outcomes.{answer_of, board_left};
ghost use Rattle.withdraw.specs.Withdraws.{withdraw_earlier, Withdraws};

use board::{Board, Refusal, Serial};
use outcomes::Accepted;
use requests::RequestWithdraw;

// What is tested before the board after is judged: 19, 9, 10, 12.
#[tactic(auto, using(crate::proofs::Withdrawing::not_ready))]
fn allowed(b: &Board, room: usize, q: RequestWithdraw) -> Result<(), Refusal>
    ensures { Answers (withdraw_earlier b.now room q) (number_answered result) }
{
    outcomes::ready(b, room, q.clock)?;
    let Some(_) = pool::with_serial(b.duties(), q.serial) else {
        return Err(Refusal::NotOpen);
    };
    Ok(())
}

// Withdraw: 19, 9, 10, 12, 8.
#[tactic(auto, using(crate::proofs::Withdrawing::refused_withdraws))]
pub fn withdraw(b: Board, list: &mut [u32], q: RequestWithdraw) -> Result<Accepted, Refusal>
    ensures { Withdraws b list.old q (answer_of result) (board_left b result) list.new }
{
    allowed(&b, list.len(), q)?;
    let after = after::withdrawn(b, q.clock, q.serial);
    let none = Serial(0);
    outcomes::judged(after, none, list)
}
