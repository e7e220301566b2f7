// Reads a board file of at most 8 duties from standard input and prints every order that the windows allow,
// lower serials first, then how many lines there are and the verdict. docs/SHOW.md says how to read it.
#![tactic(auto)]

mod walk;

use board::{Board, Refusal};
use std::io;
use walk::{MOST_LINES, Order, show_rest};

// Print how many lines were left out, if some were, and how many there are.
fn print_count(rt: &impl Print, orders: u32) -> io::Result<()> {
    if MOST_LINES < orders {
        println!(rt; "cut {}", orders - MOST_LINES)?;
    }
    println!(rt; "orders {orders}")
}

// Print the first failing order, which is so many serials at the start of the list.
fn print_failing(rt: &impl Print, length: usize, list: &[u32]) -> io::Result<()> {
    print!(rt; "no {length}")?;
    for serial in list.iter().take(length) {
        print!(rt; " {serial}")?;
    }
    println!(rt)
}

// Print every order of a board, and how many there are.
fn print_orders(rt: &impl Print, b: Board) -> io::Result<()> {
    let orders = show_rest(rt, b, b.duties().len(), Order::empty(), 0)?;
    print_count(rt, orders)
}

// Print every order of a board, and the verdict of the plain walk.
fn show(rt: &impl Print, b: Board) -> io::Result<()> {
    let mut list = [0u32; Board::DUTIES];
    match plain::walk(b, &mut list) {
        Ok(()) => {
            print_orders(rt, b)?;
            println!(rt; "yes {}", b.duties().len())
        }
        Err(Refusal::Red { length }) => {
            print_orders(rt, b)?;
            print_failing(rt, length, &list)
        }
        Err(refusal) => println!(rt; "refused {}", refusal.number()),
    }
}

fn main(rt: HostRuntime) -> io::Result<()> {
    let mut room = [0u8; layout::LONGEST + 1];
    let mut input = rt.reader();
    let n = streams::read_full(&mut input, &mut room)?;
    match file::read(&room[..n]) {
        Ok(b) => show(&rt, b),
        Err(refusal) => println!(rt; "refused {}", refusal.number()),
    }
}
