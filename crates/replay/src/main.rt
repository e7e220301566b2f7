// Reads a board file and calls from standard input, opens the board, makes the calls one after the other on
// the live board, and prints every answer and, at the end, the board. docs/REPLAY.md has the format.
#![tactic(auto)]

mod lent;
mod show;
mod text;

use board::{Answer, Board};
use lent::{BUFFER, FIRST_BYTE, is_kept, is_rest_kept, marked};
use session::{Kind, Record, SIZE};
use show::{put_answer, put_board, put_lists, put_opening, put_save};
use std::io;
use std::io::Write;
use text::Text;

// The most bytes that are read.
const INPUT: usize = 65536;

// The live board, and the first record in whose call an entry or byte was changed that the call may not
// write; 0 is the opening.
#[derive(Drop)]
struct Live {
    board: Board,
    changed: Option<usize>,
}

impl Live {
    // Open a board file, and put the line of the opening. A refused one gives the smallest board.
    fn open(file: &[u8], out: &mut impl Write) -> io::Result<Live> {
        let mut list = marked();
        let n = session::lent_by(Board::DUTIES as u16);
        let (opened, board) = open::opened(file, &mut list[..n]);
        let mut live = Live {
            board,
            changed: None,
        };
        live.note(is_kept(&list, &opened), 0);
        put_opening(
            out,
            opened.map_or_else(Answer::from, |()| Answer::plain(Answer::DONE)),
            &list,
        )?;
        Ok(live)
    }

    // The first record is kept in whose call what may not be written was not kept.
    fn note(&mut self, kept: bool, number: usize) {
        if !kept {
            self.changed = self.changed.or(Some(number));
        }
    }

    // Make a call that is lent a list, and put its line.
    fn call(&mut self, r: Record, number: usize, out: &mut impl Write) -> io::Result<()> {
        let mut list = marked();
        let n = session::lent_by(r.lent);
        let called = session::called(self.board, r, &mut list[..n]);
        outcomes::leave(&mut self.board, &called);
        self.note(is_kept(&list, &called), number);
        put_answer(
            out,
            called.map_or_else(Answer::from, |accepted| Answer::done(accepted.serial)),
            &list,
        )
    }

    // Save the live board, and put the line of it.
    fn save(&mut self, r: Record, number: usize, out: &mut impl Write) -> io::Result<()> {
        let mut buffer = [FIRST_BYTE; BUFFER];
        let n = (r.extra as usize).min(BUFFER);
        let saved = save::save(self.board, &mut buffer[..n]);
        self.note(is_rest_kept(&buffer, saved), number);
        put_save(
            out,
            saved.map_or_else(Answer::from, Answer::written),
            &buffer,
        )
    }

    // What the record with this number, from 1 on, asks for: a call, a save, a poke, which sets one number of
    // the live board, or nothing that there is.
    fn turn(&mut self, r: Record, number: usize, out: &mut impl Write) -> io::Result<()> {
        match Kind::try_from(r.kind) {
            Ok(Kind::Save) => self.save(r, number, out),
            Ok(Kind::Poke) => {
                self.board = session::poked(self.board, r);
                writeln!(out, "poke")
            }
            Ok(_) => self.call(r, number, out),
            Err(_) => writeln!(out, "?"),
        }
    }
}

// The board file, and then the whole records in turn.
fn replay(s: &[u8], out: &mut impl Write) -> io::Result<()> {
    let first = session::file_start(s);
    let end = session::file_end(s);
    let mut live = Live::open(&s[first..end], out)?;
    for (i, bytes) in s[end..].chunks_exact(SIZE).enumerate() {
        live.turn(session::record_of(bytes), i + 1, out)?;
    }
    put_board(out, &live.board)?;
    put_lists(out, live.changed)
}

fn main(rt: HostRuntime) -> io::Result<()> {
    let mut bytes = [0u8; INPUT];
    let mut input = rt.reader();
    let n = streams::read_full(&mut input, &mut bytes)?;
    let mut out = Text::new(io::writer(&rt));
    replay(&bytes[..n], &mut out)?;
    out.flush()
}
