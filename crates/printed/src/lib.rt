// What the program prints for an input: the line of what open answers on the input, cut to one byte more than
// the longest file.
#![tactic(auto)]

ghost use Rattle.std.specs.Prelude.{◌≡◌};
ghost use Rattle.open.specs.Opens.{opened_by};
ghost use Rattle.printed.specs.Printed.{cut, Printed};

use board::{Answer, Board, Refusal};

// The bytes of an input that are judged.
#[tactic(auto, using(std::proofs::lemmas::List::take_min))]
fn judged(input: &[u8]) -> &[u8]
    ensures { result.now ≡ cut input.now }
{
    &input[..(layout::LONGEST + 1).min(input.len())]
}

// What the line says of the file that was opened: the answer, and how many duties the board left has.
fn told(opened: &Result<Board, Refusal>) -> (Answer, u16)
    ensures answer { result.0 ≡ (opened_by opened.now).answer }
    ensures duties { result.1 ≡ (opened_by opened.now).board.counts.duties }
{
    match opened {
        Ok(board) => (Answer::plain(Answer::DONE), board.counts.duties),
        Err(refusal) => (Answer::from(*refusal), 0),
    }
}

// Write the line for an input to the start of the room, and answer its length.
pub fn line_for(input: &[u8], out: &mut [u8; line::ROOM]) -> usize
    ensures { Printed input.now out.old out.new result }
{
    let mut list = [0u32; Board::DUTIES];
    let opened = open::open(judged(input), &mut list);
    let (answer, duties) = told(&opened);
    line::write_line(answer, duties, &list, out)
}
