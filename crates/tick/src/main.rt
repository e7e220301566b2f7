// Reads a board file from standard input, one byte more than the longest file at most, and prints its line:
// `yes` and the number of duties; `no`, the length of a failing order and its serials; or `refused` and the
// number of the answer.
#![tactic(auto)]

use std::io;

fn main(rt: HostRuntime) -> io::Result<()> {
    let mut room = [0u8; layout::LONGEST + 1];
    standard_input::print_line(&rt, &mut room)
}
