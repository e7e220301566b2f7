// Reading a board file: its checks in document 01's order, and the board that it says.
#![tactic(auto)]

mod bytes;
mod faults;
mod fields;
mod laid;
mod parts;
mod reads;

ghost use Rattle.file.specs.Reads.{Reads};

use board::{Board, Refusal};
use laid::Laid;
use parts::first_fault;
use reads::board_of;

// Read a board file.
pub fn read(s: &[u8]) -> Result<Board, Refusal>
    ensures { Reads s.now result }
{
    let file = Laid::check(s)?;
    first_fault(&file)?;
    Ok(board_of(&file))
}
