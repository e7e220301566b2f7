// What the programs tick and sample_lines do with standard input. No contract can speak of what is read and
// written: what is printed is the line that `printed::line_for` promises for the bytes read, as the runs
// show.
#![tactic(auto)]

use std::io;

// Fill the room from standard input, or as far as that goes, and print the line for what was read. Where a
// read fails nothing is printed, and its error is answered; where the write fails, the error of that.
pub fn print_line(rt: &(impl Input + Print), room: &mut [u8]) -> io::Result<()> {
    let mut input = rt.reader();
    let n = streams::read_full(&mut input, room)?;
    let mut out = [0u8; line::ROOM];
    let k = printed::line_for(&room[..n], &mut out);
    rt.write_all(&out[..k])
}
