// Act now on the live board, by value.
#![tactic(auto)]

ghost use Rattle.board.specs.Answers.{Answers};
ghost use Rattle.board.specs.Refusals.{number_answered};
ghost use Rattle.outcomes.specs.Outcomes.{answer_of, board_left};
ghost use Rattle.act.specs.ActsNow.{act_earlier, ActsNow};

use board::{Board, Refusal, Serial};
use outcomes::Accepted;
use requests::RequestAct;

// What is tested before the board after is judged: 19, 9, 10, 11, 15.
#[tactic(auto, using(crate::proofs::Refusing::not_ready, crate::proofs::Refusing::answers_11))]
fn allowed(b: &Board, room: usize, q: RequestAct) -> Result<(), Refusal>
    ensures { Answers (act_earlier b.now room q) (number_answered result) }
{
    outcomes::ready(b, room, q.clock)?;
    if !requests::doing_fits(b.counts, q.doer, q.action, q.first, q.second) {
        return Err(Refusal::Request);
    }
    let what = records::what_of(q.action, q.first, q.second);
    if !permitted::permitted(b, q.doer, what) {
        return Err(Refusal::NotPermitted);
    }
    Ok(())
}

// Act: 19, 9, 10, 11, 15, 8.
#[tactic(auto, using(crate::proofs::Acting::refused_acts))]
pub fn act(b: Board, list: &mut [u32], q: RequestAct) -> Result<Accepted, Refusal>
    ensures { ActsNow b list.old q (answer_of result) (board_left b result) list.new }
{
    allowed(&b, list.len(), q)?;
    let what = records::what_of(q.action, q.first, q.second);
    let after = after::acted(b, q.clock, what);
    let none = Serial(0);
    outcomes::judged(after, none, list)
}
