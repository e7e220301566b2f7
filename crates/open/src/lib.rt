// Opening a board file, by value.
#![tactic(auto)]

ghost use Rattle.board.specs.Refusals.{answered, plainly_done};
ghost use Rattle.open.specs.Opens.{opened_by, Opens};

use board::{Board, Refusal};

// Open a board file: 9, then the checks of reading it, then 8.
#[tactic(auto, using(crate::proofs::Opening::short))]
pub fn open(s: &[u8], list: &mut [u32]) -> Result<Board, Refusal>
    ensures { Opens s.now list.old list.new (opened_by result) }
{
    if list.len() < Board::DUTIES {
        return Err(Refusal::List);
    }
    let board = file::read(s)?;
    verdict::check_good(board, list)?;
    Ok(board)
}

// The same, with the board that is left beside the result: what the file says, or the smallest board where it
// is refused.
pub fn opened(s: &[u8], list: &mut [u32]) -> (Result<(), Refusal>, Board)
    ensures { Opens s.now list.old list.new
        (record { answer = answered plainly_done result.0; board = result.1 }) }
{
    match open(s, list) {
        Ok(board) => (Ok(()), board),
        Err(refusal) => (Err(refusal), Board::smallest()),
    }
}
