// Whether a board value says what the bytes of a file say, with the filler beyond each count: zeros, which is
// what a record past the end of the file reads as.
use crate::bytes::{four, put_twos, two};
use crate::contents::{duty, holding, permission, rule};
use crate::parts::Part;
use board::{Board, Counts, Serial};

// The counts in the header.
fn counts(s: &[u8]) -> Counts {
    Counts {
        users: two(s, 2),
        roles: two(s, 4),
        permissions: two(s, 6),
        rules: two(s, 8),
        duties: two(s, 10),
    }
}

// Whether a list has what the records of a part are read as.
fn part_says<T: PartialEq + Copy, F: Fn(&[u8]) -> T>(
    s: &[u8],
    part: Part,
    list: &[T],
    read: F,
) -> bool
    requires { F.IsAlwaysCallable read }
{
    list.iter()
        .zip(0..u16::MAX)
        .all(|(item, place)| *item == read(part.record(s, place)))
}

// Whether a board is exactly what a file says.
pub(crate) fn says(s: &[u8], b: &Board) -> bool {
    (counts(s) == b.counts)
        & (four(s, 12) == b.clock)
        & (Serial(four(s, 16)) == b.next)
        & part_says(s, Part::Holdings, &b.holdings, holding)
        & part_says(s, Part::Permissions, &b.permissions, permission)
        & part_says(s, Part::Rules, &b.rules, rule)
        & part_says(s, Part::Duties, &b.duties, duty)
}

// Whether a board is the smallest: one user with no role, one role, clock 0, next serial 1, nothing else.
pub(crate) fn is_smallest(b: &Board) -> bool {
    let mut smallest = [0u8; 44];
    put_twos(&mut smallest, 0, &[1, 1, 1, 0, 0, 0, 0, 0, 1]);
    says(&smallest, b)
}
