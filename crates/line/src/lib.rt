// The line that the program prints for an answer: a word and numbers with single spaces, and a newline.
#![tactic(auto)]

ghost use Rattle.std.specs.Prelude.{◌≡◌, [], ◌∷◌, ◌++◌, ◌*◌, ◌≤◌, min, length, take};
ghost use Rattle.board.specs.Limits.{max_duties};
ghost use Rattle.put.specs.Put.{Put};
ghost use Rattle.put.specs.Writes.{HasRoom, Writes};
ghost use Rattle.line.specs.Line.{max_number, numbers, max_word, newline, line_of};

use board::{Answer, Board};
use itoa::Buffer;
use put::Writer;

// The most bytes of a word.
const WORD: usize = 7;

// The most digits of a number of 64 bits.
const DIGITS: usize = 20;

// Room for any line: a word, 129 numbers with a space before each, and a newline.
pub const ROOM: usize = WORD + (1 + DIGITS) * (1 + Board::DUTIES) + 1;

// Put a space and a number.
fn put_number(n: u64, line: &mut Writer<'_>)
    requires { HasRoom max_number line.old }
    ensures { Writes (numbers (n ∷ [])) line.old line.new }
{
    let mut digits = Buffer::new();
    let spelled = digits.format(n).as_bytes();
    line.put(b" ");
    line.put(spelled);
}

// Put the numbers of a list, each with a space before it.
fn put_numbers(list: &[u32], line: &mut Writer<'_>)
    requires { HasRoom (max_number * length list.now) line.old }
    ensures { Writes (numbers list.now) line.old line.new }
{
    for number in list {
        put_number(u64::from(*number), line);
    }
}

// Put a whole line at the start: a word, a number, the numbers of a list, and a newline. Answer its length.
fn put_line(word: &[u8], number: u64, list: &[u32], out: &mut [u8; ROOM]) -> usize
    requires { (length word.now ≤ max_word) × (length list.now ≤ max_duties) }
    ensures { Put (word.now ++ (numbers (number ∷ list.now) ++ newline)) out.old 0 out.new result }
{
    let mut line = Writer { room: out, at: 0 };
    line.put(word);
    put_number(number, &mut line);
    put_numbers(list, &mut line);
    line.put(b"\n");
    line.at
}

// The serials that are shown: as many as the answer says, and no more than 128 and than there are.
fn shown(length: usize, list: &[u32]) -> &[u32]
    ensures { result.now ≡ take (min length max_duties) list.now }
{
    &list[..length.min(Board::DUTIES).min(list.len())]
}

// Write the line for an answer, with the number of duties of the board and the lent list, to the start of
// the room, and answer its length. A line tells an answer in numbers, so it is asked for one (`line_of`).
pub fn write_line(answer: Answer, duties: u16, list: &[u32], out: &mut [u8; ROOM]) -> usize
    ensures { Put (line_of answer duties list.now)
        out.old 0 out.new result }
{
    match answer.number {
        Answer::DONE => put_line(b"yes", u64::from(duties), &[], out),
        Answer::RED => put_line(b"no", answer.length as u64, shown(answer.length, list), out),
        number => put_line(b"refused", u64::from(number), &[], out),
    }
}
