// An independent check of reading and verdict: small random boards, each as the bytes of its file, as made
// and then damaged. Each file is read and every allowed order walked by code that shares nothing with the
// board's but its plain types, and the board's answer on the same bytes is compared with what was met.
#![tactic(auto)]

mod bytes;
mod contents;
mod damage;
mod draws;
mod make;
mod order;
mod parts;
mod reader;
mod rules;
mod says;
mod shortcuts;
mod tally;
mod walk;

use board::{Answer, Board, Serial};
use contents::Contents;
use damage::damage;
use draws::Draws;
use make::make;
use order::{is_failing, places_differ};
use reader::{Fault, check};
use says::{is_smallest, says};
use shortcuts::Shortcut;
use std::io;
use tally::{Outcome, Tally, Verdict};
use walk::walk;

// How many boards are made, and what stands in the lent list before a call: no serial.
const BOARDS: u32 = 10000;

const MARK: u32 = u32::MAX;

// ---- one file

// What the board tells of a file: the answer, the board given back, and the list in the answer's length and
// beyond it.
#[derive(Clone, Copy)]
struct Told<'a> {
    answer: Answer,
    board: Board,
    order: &'a [u32],
    beyond: &'a [u32],
}

// Ask the board about a file. The board that is lent to the call is not the smallest, so that a refusal has
// to make it so.
fn ask<'a>(s: &[u8], list: &'a mut [u32]) -> Told<'a> {
    let lent = Board {
        clock: 1,
        ..Board::smallest()
    };
    let (opened, board) = lent_once::open(lent, s, list);
    let answer = opened.map_or_else(Answer::from, |()| Answer::plain(Answer::DONE));
    let (order, beyond) = list.split_at_checked(answer.length).unwrap_or((list, &[]));
    Told {
        answer,
        board,
        order,
        beyond,
    }
}

impl<'a> Told<'a> {
    // Whether the answer has the number of a verdict, no serial and the length of the list, and every entry
    // beyond it is still the mark.
    fn answers(&self, verdict: Verdict) -> bool {
        let answer = Answer {
            number: verdict.number(),
            serial: Serial(0),
            length: self.order.len(),
        };
        (self.answer == answer) & self.beyond.iter().all(|entry| *entry == MARK)
    }
}

// Compare what the board tells with a file that is to be refused.
fn compared_refused(fault: Fault, told: &Told) -> Outcome {
    let verdict = Verdict::Refused(fault);
    Outcome {
        verdict,
        orders: 0,
        length: told.order.len(),
        misled: [false; Shortcut::COUNT],
        right: told.answers(verdict) & told.order.is_empty() & is_smallest(&told.board),
    }
}

// Walk a file that is not to be refused, and compare what the board tells.
fn compared_walked(s: &[u8], contents: &Contents, told: &Told) -> Outcome {
    let met = walk(s, contents, None);
    let is_red = met.stuck != 0;
    let misled = Shortcut::ALL.map(|shortcut| match shortcut {
        Shortcut::Places => places_differ(contents, told.order),
        _ => (walk(s, contents, Some(shortcut)).stuck != 0) != is_red,
    });
    let (verdict, right) = if is_red {
        let is_order = is_failing(s, contents, told.order);
        (Verdict::Red, is_order & is_smallest(&told.board))
    } else {
        (Verdict::Green, told.order.is_empty() & says(s, &told.board))
    };
    Outcome {
        verdict,
        orders: met.orders,
        length: told.order.len(),
        misled,
        right: right & told.answers(verdict),
    }
}

// Read and walk a file, ask the board about it, and compare.
fn compared(s: &[u8]) -> Outcome {
    let mut list = [MARK; Board::DUTIES];
    let told = ask(s, &mut list);
    match check(s) {
        Err(fault) => compared_refused(fault, &told),
        Ok(()) => compared_walked(s, &Contents::read(s), &told),
    }
}

// ---- all files

// The counts of the boards as made, and of the damaged files.
#[derive(Clone, Copy)]
struct Tallies {
    made: Tally,
    damaged: Tally,
}

// Compare the file in the first bytes of a buffer, so many, and count it. Name the board, if the answer is
// wrong and few were before.
fn count_file(
    rt: &impl Print,
    tally: &mut Tally,
    board: u32,
    buffer: &[u8],
    length: u32,
) -> io::Result<()> {
    let s = buffer.get(..length as usize).unwrap_or(buffer);
    let outcome = compared(s);
    if !outcome.right & (tally.wrong < 10) {
        println!(rt; "wrong at board {board}")?;
    }
    tally.count(&outcome);
    Ok(())
}

// Count one more board, made from its random numbers, and then damaged.
fn count_board(rt: &impl Print, tallies: &mut Tallies, board: u32) -> io::Result<()> {
    let draws = Draws { board };
    let mut buffer = [0u8; 640];
    let made = make(&mut buffer, draws);
    count_file(rt, &mut tallies.made, board, &buffer, made)?;
    let damaged = damage(&mut buffer, draws, made);
    count_file(rt, &mut tallies.damaged, board, &buffer, damaged)
}

fn main(rt: HostRuntime) -> io::Result<()> {
    let mut tallies = Tallies {
        made: Tally::NOTHING,
        damaged: Tally::NOTHING,
    };
    for board in 1..=BOARDS {
        count_board(&rt, &mut tallies, board)?;
    }
    println!(rt; "boards {BOARDS}")?;
    tallies.made.print_made(&rt)?;
    tallies.damaged.print_damaged(&rt)?;
    let wrong = tallies.made.wrong.saturating_add(tallies.damaged.wrong);
    println!(rt; "disagreements {wrong}")
}
