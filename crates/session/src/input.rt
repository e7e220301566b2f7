// The input: 4 bytes with the length of the board file, its bytes, and then records of 32 bytes. Numbers have
// their low byte first, and bytes past the end count as 0.
ghost use Rattle.std.specs.Prelude.{◌≡◌, ◌≤◌, ◌<◌, length, get_or};
ghost use Rattle.layout.specs.Bytes.{two, four};
ghost use Rattle.session.specs.Input.{file_start, file_end, record_at, lent_by};

use crate::{LENT, Record};

// How many bytes stand before the board file.
const BEFORE: usize = 4;

// The byte at a place, 0 past the end.
fn byte(s: &[u8], at: usize) -> u8
    ensures { result ≡ get_or s.now at 0 }
{
    s.get(at).copied().unwrap_or(0)
}

// The number in two bytes. Two bytes and four are read by a function each, since the library's reading takes
// an array of another type for each: it is no plainer over a length, whose clause cannot name the number.
fn two_at(s: &[u8], at: usize) -> u16
    requires { at < 254 }
    ensures { result ≡ two s.now at }
{
    u16::from_le_bytes([byte(s, at), byte(s, at + 1)])
}

// The number in four bytes.
fn four_at(s: &[u8], at: usize) -> u32
    requires { at < 254 }
    ensures { result ≡ four s.now at }
{
    u32::from_le_bytes([
        byte(s, at),
        byte(s, at + 1),
        byte(s, at + 2),
        byte(s, at + 3),
    ])
}

// Where the board file starts: at the end of an input that is too short to say its length.
pub fn file_start(s: &[u8]) -> usize
    ensures { (result ≡ file_start s.now) × (result ≤ length s.now) }
{
    s.len().min(BEFORE)
}

// Where the board file ends.
pub fn file_end(s: &[u8]) -> usize
    ensures { (result ≡ file_end s.now)
        × ((file_start s.now ≤ result) × (result ≤ length s.now)) }
{
    let start = file_start(s);
    let said = four_at(s, 0) as usize;
    start + said.min(s.len() - start)
}

// The record at the start of these bytes.
pub fn record_of(s: &[u8]) -> Record
    ensures { result ≡ record_at s.now }
{
    Record {
        kind: two_at(s, 0),
        lent: two_at(s, 2),
        doer: two_at(s, 4),
        action: two_at(s, 6),
        first: two_at(s, 8),
        second: two_at(s, 10),
        start: four_at(s, 12),
        end: four_at(s, 16),
        clock: four_at(s, 20),
        serial: four_at(s, 24),
        extra: four_at(s, 28),
    }
}

// How many entries are lent to a call that asks for so many.
pub fn lent_by(lent: u16) -> usize
    ensures { (result ≡ lent_by lent) × (result ≤ 256) }
{
    (lent as usize).min(LENT)
}
