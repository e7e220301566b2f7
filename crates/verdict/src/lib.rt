// The verdict on a board: green exactly if in every order that the windows allow, and at each step, the next
// duty is permitted; red comes with an order that fails.
#![tactic(auto)]

ghost use Rattle.std.specs.Prelude.{◌≡◌, true, ◌≤◌, length};
ghost use Rattle.board.specs.Good.{good};
ghost use Rattle.board.specs.Limits.{max_duties};
ghost use Rattle.board.specs.Refusals.{answered, plainly_done};
ghost use Rattle.board.specs.View.{view};
ghost use Rattle.verdict.specs.Checked.{Checked};
ghost use Rattle.verdict.specs.Judging.{Judged};

use board::{Board, Refusal};
use trails::Open;

// Judge a good board: green at once where no duty is open; where it is red a failing order is written to the
// start of the list, which has room for it.
fn judge(b: Board, list: &mut [u32]) -> Result<(), Refusal>
    ensures { good b ≡ true → max_duties ≤ length list.old
        → Judged (view b) list.old list.new result }
{
    let duties = b.duties();
    let n = duties.len();
    if n == 0 {
        return Ok(());
    }
    let asks = asks::asks_of(&b, duties);
    let Some(trouble) = troubles::trouble_of(duties, &asks, &b.holdings) else {
        return Ok(());
    };
    let keys = in_order::in_order(duties);
    let all = Open {
        duties,
        asks: &asks,
        keys: &keys[..n],
    };
    let length = trails::write_order(all, trouble.spoiler, trouble.stuck, b.holdings, list);
    Err(Refusal::Red { length })
}

// Check a board that is known to be good: 9, 8.
#[tactic(auto, using(crate::proofs::Answered::short, crate::proofs::Answered::judged))]
pub fn check_good(b: Board, list: &mut [u32]) -> Result<(), Refusal>
    ensures { good b ≡ true → Checked b list.old list.new (answered plainly_done result) }
{
    if list.len() < Board::DUTIES {
        return Err(Refusal::List);
    }
    judge(b, list)
}

// Check a board: 19, 9, 8. It only reads the board.
#[tactic(auto, using(crate::proofs::Answered::broken))]
pub fn check(b: Board, list: &mut [u32]) -> Result<(), Refusal>
    ensures { Checked b list.old list.new (answered plainly_done result) }
{
    if !values::is_good(b) {
        return Err(Refusal::Broken);
    }
    check_good(b, list)
}
