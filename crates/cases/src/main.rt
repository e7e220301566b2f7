// Document 01's small boards, run and compared: 1 to 11 as files that are opened, 12 to 14 call by call;
// all by value and then through the lent layer. A line for each with what was told, and a last line with
// the number of differences from document 01.
#![tactic(auto)]

mod boards;
mod steps;
mod wanted;
mod ways;

use board::Board;
use boards::{FILES, opening_of};
use std::io;
use steps::{Step, admitted, in_turn, withdrawn};
use wanted::{Told, Wanted};
use ways::{ByValue, Left, Lent, Way};

// What stands in the lent list before a call: no serial.
const MARK: u32 = 4294967295;

// End a line with the answer and the failing order, and answer how many differences from document 01 it
// shows.
fn compare(rt: &impl Print, left: Left, list: &[u32], wanted: Wanted) -> io::Result<u32> {
    let answer = left.answer;
    print!(rt; " {} {} {}", answer.number, answer.serial.0, answer.length)?;
    for serial in list.iter().take(answer.length) {
        print!(rt; " {serial}")?;
    }
    let told = Told {
        answer,
        held: left.board.holdings[1],
        open: left.board.counts.duties,
    };
    if wanted.is(told, list) {
        println!(rt)?;
        Ok(0)
    } else {
        println!(rt; " differs")?;
        Ok(1)
    }
}

// Open every file, and compare the answers.
fn open_all<W: Way>(rt: &impl Print) -> io::Result<u32> {
    let mut differences: u32 = 0;
    for k in 1..=FILES {
        let opening = opening_of(k);
        let mut list = [MARK; Board::DUTIES];
        let left = W::open(opening.file.as_slice(), &mut list);
        print!(rt; "{}case {}:", W::PREFIX, opening.name)?;
        let more = compare(rt, left, &list, opening.wanted)?;
        differences = differences.saturating_add(more);
    }
    Ok(differences)
}

// The steps of a case in turn, on the board that the k-th file gives, compared.
fn run<W: Way>(rt: &impl Print, case: u8, k: u8, steps: &[Step]) -> io::Result<u32> {
    let mut list = [MARK; Board::DUTIES];
    let mut board = W::open(opening_of(k).file.as_slice(), &mut list).board;
    let mut differences: u32 = 0;
    for (i, step) in steps.iter().enumerate() {
        let mut list = [MARK; Board::DUTIES];
        let left = W::called(board, step.ask, &mut list);
        board = left.board;
        print!(rt; "{}case {case} step {}:", W::PREFIX, i + 1)?;
        let more = compare(rt, left, &list, step.wanted)?;
        differences = differences.saturating_add(more);
    }
    Ok(differences)
}

// All boards in one way: how many differences there were.
fn all<W: Way>(rt: &impl Print) -> io::Result<u32> {
    let files = open_all::<W>(rt)?;
    let first = run::<W>(rt, 12, 2, &in_turn())?;
    let second = run::<W>(rt, 13, 2, &withdrawn())?;
    let third = run::<W>(rt, 14, 1, &admitted())?;
    Ok(
        files
            .saturating_add(first)
            .saturating_add(second)
            .saturating_add(third),
    )
}

fn main(rt: HostRuntime) -> io::Result<()> {
    let by_value = all::<ByValue>(&rt)?;
    let lent = all::<Lent>(&rt)?;
    let differences = by_value.saturating_add(lent);
    println!(rt; "differences {differences}")
}
