// Reads a board file and calls from standard input, opens the board, makes the calls one after the other on
// the live board, and writes the board file after them to standard output. What cannot be opened, a red board
// and a board that breaks the file rules give a line on standard error alone. docs/REPLAY.md has the format.
#![tactic(auto)]

use board::{Board, Refusal};
use session::{Kind, LENT, Record, SIZE};
use std::io;

// The most bytes that are read.
const ROOM: usize = 65536;

// Set the number of the board that a record names.
fn poke(board: &mut Board, r: Record) {
    *board = session::poked(*board, r);
}

// Make the call that a record asks for; one that asks for none leaves the board as it is.
fn call(board: &mut Board, r: Record) {
    let mut list = [0u32; LENT];
    let n = session::lent_by(r.lent);
    let called = session::called(*board, r, &mut list[..n]);
    outcomes::leave(board, &called);
}

// Poke the board, or make a call. Each has a function of its own: in one, room for the boards of both is made
// at each record.
fn turn(board: &mut Board, r: Record) {
    if Kind::try_from(r.kind) == Ok(Kind::Poke) {
        poke(board, r);
    } else {
        call(board, r);
    }
}

// Put the file of the board after the calls at the start of the buffer, and answer its length; or why there
// is none.
fn carried(s: &[u8], buffer: &mut [u8]) -> Result<usize, Refusal> {
    let first = session::file_start(s);
    let end = session::file_end(s);
    let mut list = [0u32; Board::DUTIES];
    let mut board = open::open(&s[first..end], &mut list)?;
    for bytes in s[end..].chunks_exact(SIZE) {
        turn(&mut board, session::record_of(bytes));
    }
    verdict::check(board, &mut list)?;
    save::save(board, buffer)
}

// Write the file of the board after the calls, or say why there is none.
fn carry(rt: &(impl Print + Eprint), s: &[u8]) -> io::Result<()> {
    let mut buffer = [0u8; layout::LONGEST];
    match carried(s, &mut buffer) {
        Ok(n) => buffer.get(..n).map_or(Ok(()), |file| rt.write_all(file)),
        Err(Refusal::Red { length: _ }) => eprintln!(rt; "carry: the board is red"),
        Err(refusal) => eprintln!(rt; "carry: refused {}", refusal.number()),
    }
}

fn main(rt: HostRuntime) -> io::Result<()> {
    let mut bytes = [0u8; ROOM];
    let mut input = rt.reader();
    let n = streams::read_full(&mut input, &mut bytes)?;
    carry(&rt, &bytes[..n])
}
