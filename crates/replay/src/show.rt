// The lines: an opening, an answer, and at the end the board and whether the lent lists were kept.
use board::{Answer, Board, Duty, What};
use std::io;
use std::io::Write;

// ---- answers

// Put numbers, each after a space, and end the line.
fn put_list(out: &mut impl Write, numbers: &[u32]) -> io::Result<()> {
    for number in numbers {
        write!(out, " {number}")?;
    }
    writeln!(out)
}

// Put the failing order at the start of a list, where there is one, and end the line.
fn put_order(out: &mut impl Write, answer: Answer, list: &[u32]) -> io::Result<()> {
    put_list(out, &list[..answer.length.min(list.len())])
}

// The line of the opening: its number, and the failing order.
pub(crate) fn put_opening(out: &mut impl Write, answer: Answer, list: &[u32]) -> io::Result<()> {
    write!(out, "open {} {}", answer.number, answer.length)?;
    put_order(out, answer, list)
}

// Put the number, the serial and the length of an answer.
fn put_numbers(out: &mut impl Write, answer: Answer) -> io::Result<()> {
    write!(
        out,
        "{} {} {}",
        answer.number, answer.serial.0, answer.length
    )
}

// The line of an answer: its numbers, and the failing order.
pub(crate) fn put_answer(out: &mut impl Write, answer: Answer, list: &[u32]) -> io::Result<()> {
    put_numbers(out, answer)?;
    put_order(out, answer, list)
}

// The hexadecimal digit of a number, of which the last four bits count.
fn digit(bits: u8) -> u8 {
    let d = bits % 16;
    if d < 10 { b'0' + d } else { b'a' - 10 + d }
}

// How many bytes are put in hexadecimal together.
const ROW: usize = 32;

// Put bytes in hexadecimal, a row of them at a time: a formatted write for each takes several times as long.
fn put_bytes(out: &mut impl Write, bytes: &[u8]) -> io::Result<()> {
    for row in bytes.chunks(ROW) {
        let mut text = [0u8; 2 * ROW];
        for (pair, byte) in text.chunks_exact_mut(2).zip(row) {
            if let [high, low] = pair {
                *high = digit(*byte / 16);
                *low = digit(*byte);
            }
        }
        out.write_all(&text[..2 * row.len().min(ROW)])?;
    }
    Ok(())
}

// The line of a save: its numbers, and after a space the bytes that were written, where there are any.
pub(crate) fn put_save(out: &mut impl Write, answer: Answer, buffer: &[u8]) -> io::Result<()> {
    put_numbers(out, answer)?;
    if answer.length != 0 {
        write!(out, " ")?;
    }
    put_bytes(out, &buffer[..answer.length.min(buffer.len())])?;
    writeln!(out)
}

// ---- the board

// Put a duty: what is to be done as an action, a first and a second number.
fn put_duty(out: &mut impl Write, d: Duty) -> io::Result<()> {
    let (action, first, second) = match d.what {
        What::Grant { target, role } => (0, target, role),
        What::Revoke { target, role } => (1, target, role),
        What::Use { action, object } => (action, object, 0),
    };
    write!(
        out,
        "duty {} {} {action} {first} {second}",
        d.serial.0, d.doer
    )?;
    writeln!(out, " {} {}", d.start, d.end)
}

// The lines of the board: its counts, the clock and the next serial; the holdings; and the duties, in the
// order in which the board keeps them.
pub(crate) fn put_board(out: &mut impl Write, board: &Board) -> io::Result<()> {
    let counts = board.counts;
    write!(
        out,
        "board {} {} {}",
        counts.users, counts.roles, counts.permissions
    )?;
    writeln!(
        out,
        " {} {} {} {}",
        counts.rules, counts.duties, board.clock, board.next.0
    )?;
    write!(out, "holds")?;
    put_list(out, board.users())?;
    for d in board.duties() {
        put_duty(out, *d)?;
    }
    Ok(())
}

// ---- the lent lists and buffers

// The line that tells whether each entry and byte that a call may not write was kept in every call, or the
// first record where not.
pub(crate) fn put_lists(out: &mut impl Write, changed: Option<usize>) -> io::Result<()> {
    match changed {
        None => writeln!(out, "list ok"),
        Some(number) => writeln!(out, "list changed {number}"),
    }
}
