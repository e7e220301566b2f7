// Admit a duty to the live board, by value.
#![tactic(auto)]

ghost use Rattle.std.specs.Prelude.{◌≡◌, true, [], ◌∷◌, ◌<◌, length};
ghost use Rattle.board.specs.After.{with_serial, admitted};
ghost use Rattle.board.specs.Answers.{Answers};
ghost use Rattle.board.specs.Good.{good};
ghost use Rattle.board.specs.Limits.{max_duties, max_next};
ghost use Rattle.board.specs.Refusals.{number_answered};
ghost use Rattle.board.specs.Saying.{board_saying};
ghost use Rattle.board.specs.View.{view};
ghost use Rattle.outcomes.specs.Outcomes.{answer_of, board_left};
ghost use Rattle.requests.specs.Requests.{asked};
ghost use Rattle.admit.specs.Admits.{admit_earlier, Admits};

use board::{Board, Duty, Refusal, Serial};
use outcomes::Accepted;
use requests::RequestAdmit;

// The duty asked for, with the serial.
fn duty_asked(q: RequestAdmit, serial: Serial) -> Duty
    ensures { result ≡ with_serial serial.0 (asked q) }
{
    let what = records::what_of(q.action, q.first, q.second);
    Duty {
        serial,
        doer: q.doer,
        what,
        start: q.start,
        end: q.end,
    }
}

// What is tested before the board after is judged: 19, 9, 10, 11, 7, 21, 16, 17.
#[tactic(auto, using(crate::proofs::Refusing::not_ready, crate::proofs::Refusing::answers_11, crate::proofs::Refusing::answers_16))]
fn allowed(b: &Board, room: usize, q: RequestAdmit) -> Result<(), Refusal>
    ensures { Answers (admit_earlier b.now room q) (number_answered result) }
{
    outcomes::ready(b, room, q.clock)?;
    if !requests::doing_fits(b.counts, q.doer, q.action, q.first, q.second) {
        return Err(Refusal::Request);
    }
    let d = duty_asked(q, b.next);
    if !windows::window_fits(d) {
        return Err(Refusal::Window);
    }
    let over = windows::is_over(q.clock, d);
    let full = b.duties().len() == Board::DUTIES;
    if over {
        return Err(Refusal::Over);
    }
    if full {
        return Err(Refusal::Full);
    }
    if b.next.0 == Board::NEXT {
        return Err(Refusal::Spent);
    }
    Ok(())
}

// The board with the duty asked for added under the next serial, at the call's clock.
fn with_duty(b: Board, q: RequestAdmit) -> Board
    requires { (good b ≡ true) × (length (view b).duties < max_duties) × (b.next.0 < max_next) }
    ensures { result ≡ board_saying (admitted (view b) q.clock (asked q ∷ [])) }
{
    let serial = b.next;
    let d = duty_asked(q, serial);
    let count = b.counts.duties;
    let at = count as usize;
    let next = Serial(serial.0 + 1);
    let mut after = b;
    after.clock = q.clock;
    after.next = next;
    after.duties[at] = d;
    after.counts.duties = count + 1;
    after
}

// Admit: 19, 9, 10, 11, 7, 21, 16, 17, 8.
#[tactic(auto, using(crate::proofs::Admitting::refused_admits))]
pub fn admit(b: Board, list: &mut [u32], q: RequestAdmit) -> Result<Accepted, Refusal>
    ensures { Admits b list.old q (answer_of result) (board_left b result) list.new }
{
    allowed(&b, list.len(), q)?;
    let after = with_duty(b, q);
    outcomes::judged(after, b.next, list)
}
