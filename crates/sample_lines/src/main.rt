// The lines for many inputs in one: each is four bytes of length, lowest first, and then its bytes.
#![tactic(auto)]

use std::io;

// More than the longest input here.
const ROOM: usize = 32768;

// More than there are inputs.
const MOST: u32 = 1000;

// The length of the next input; none where the inputs end.
fn next_length(rt: &impl Input) -> io::Result<Option<usize>> {
    let mut length = [0u8; 4];
    let mut input = rt.reader();
    if streams::read_full(&mut input, &mut length)? < length.len() {
        return Ok(None);
    }
    Ok(Some(u32::from_le_bytes(length) as usize))
}

fn main(rt: HostRuntime) -> io::Result<()> {
    let mut room = [0u8; ROOM];
    for _ in 0..MOST {
        match next_length(&rt)? {
            Some(n) if n <= ROOM => standard_input::print_line(&rt, &mut room[..n])?,
            _ => return Ok(()),
        }
    }
    Ok(())
}
