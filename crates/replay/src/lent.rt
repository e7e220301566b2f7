// The lists and buffers that are lent to the calls. Each entry of a list holds a first value that tells its
// place, and every byte of a buffer the same one, so that what was written can be told from what was left.
use board::Refusal;
use session::LENT;

// The room for the buffers: no longer one is lent.
pub(crate) const BUFFER: usize = 8192;

// The first value of a byte of a buffer.
pub(crate) const FIRST_BYTE: u8 = 165;

// The first value of an entry is this and its place.
const FIRST: u32 = 4000000000;

// The first value of an entry.
fn first_value(i: usize) -> u32 {
    FIRST + (i % LENT) as u32
}

// A list with the first value at each entry.
pub(crate) fn marked() -> [u32; LENT] {
    std::array::from_fn(first_value)
}

// Whether every entry from a place on still holds its first value.
fn is_marked(list: &[u32], from: usize) -> bool {
    list.iter()
        .enumerate()
        .skip(from)
        .all(|(i, entry)| *entry == first_value(i))
}

// Whether each entry was kept that a call with this outcome may not write: with 8 those after the failing
// order, else all.
pub(crate) fn is_kept<T>(list: &[u32], outcome: &Result<T, Refusal>) -> bool {
    match outcome {
        Err(Refusal::Red { length }) => is_marked(list, *length),
        _ => is_marked(list, 0),
    }
}

// Whether each byte was kept that a save may not write: those after the file.
pub(crate) fn is_rest_kept(buffer: &[u8], saved: Result<usize, Refusal>) -> bool {
    buffer
        .iter()
        .skip(saved.unwrap_or(0))
        .all(|byte| *byte == FIRST_BYTE)
}
