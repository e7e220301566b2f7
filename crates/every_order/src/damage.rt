// Damage to a board file, by a row of random numbers. Some leave a valid file.
use crate::bytes::{four, put, put_four, put_twos, two};
use crate::draws::Draws;
use crate::parts::Part;
use crate::rules::only;

// A number at or next to a limit of the board's, or of this file's.
fn telling(s: &[u8], which: u8) -> u16 {
    let numbers = [
        0,
        1,
        2,
        32,
        33,
        63,
        64,
        65,
        128,
        129,
        255,
        256,
        512,
        513,
        two(s, 2),
        two(s, 4),
        (only(two(s, 4)) % 65536) as u16,
        two(s, 10),
    ];
    numbers.get(usize::from(which)).copied().unwrap_or(0)
}

// Let the two bytes that an offset is in be a telling number.
fn change_field(s: &mut [u8], at: usize, which: u8) {
    let number = telling(s, which);
    put_twos(s, at / 2 * 2, &[number]);
}

// Let a record begin as the one before it does: so it is not above that one.
fn repeat_record(s: &mut [u8], part: Part, place: u16) {
    let before = part.record(s, place);
    let fields = [two(before, 0), two(before, 2), two(before, 4)];
    if let Some(at) = part.at(s, place.saturating_add(1)) {
        put_twos(s, at as usize, &fields);
    }
}

// Let a duty start just after its end.
fn start_after_end(s: &mut [u8], place: u16) {
    let end = four(Part::Duties.record(s, place), 16);
    if let Some(at) = Part::Duties.at(s, place) {
        put_four(s, at as usize + 12, end.saturating_add(1));
    }
}

// One of the parts with an order.
fn part_by(which: u8) -> Part {
    match which % 3 {
        0 => Part::Permissions,
        1 => Part::Rules,
        _ => Part::Duties,
    }
}

// Change the file: any byte, a field of the header, any field, the order, or a window.
fn change(s: &mut [u8], draws: Draws, row: u32, at: usize) {
    let place = u16::from(draws.below(row, 4, 5));
    let which = draws.below(row, 5, 18);
    match draws.below(row, 1, 8) {
        0 => {
            let [byte, _, _, _] = draws.four(row, 6).to_le_bytes();
            put(s, at, &[byte]);
        }
        1 => change_field(s, at % 40, which),
        2 => repeat_record(s, part_by(which), place),
        3 => start_after_end(s, place),
        _ => change_field(s, at, which),
    }
}

// Damage a file of so many bytes, and answer how many it then has: a cut, a byte more, or a change.
fn damage_once(s: &mut [u8], draws: Draws, row: u32, kinds: u8, length: u32) -> u32 {
    let at = draws.four_below(row, 2, length);
    match draws.below(row, 0, kinds) {
        0 => at,
        1 => length.saturating_add(1),
        kind => {
            if kind < 20 {
                change(s, draws, row, at as usize);
            }
            length
        }
    }
}

// Damage a file of so many bytes once, and on some boards once more.
pub(crate) fn damage(s: &mut [u8], draws: Draws, length: u32) -> u32 {
    let once = damage_once(s, draws, 105, 20, length);
    damage_once(s, draws, 106, 40, once)
}
