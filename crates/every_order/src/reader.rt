// Document 01's "Board file" once more: why a file is refused.
ghost use Rattle.std.specs.Prelude.{◌≡◌};

use crate::bytes::{four, two};
use crate::parts::{HEADER, Part, total};

// What is wrong with a file. A case stands before those that are met later.
#[derive(Clone, Copy)]
pub(crate) enum Fault {
    Short,
    Version,
    Counts,
    Layout,
    Field,
    Window,
    Order,
}

impl Fault {
    // The number with which the file is refused.
    pub(crate) fn number(self) -> u8 {
        match self {
            Fault::Short => 1,
            Fault::Version => 2,
            Fault::Counts => 3,
            Fault::Layout => 4,
            Fault::Field => 5,
            Fault::Window => 7,
            Fault::Order => 6,
        }
    }
}

// ---- the header

// How many users there are.
fn users(s: &[u8]) -> u16 {
    two(s, 2)
}

// How many roles there are.
fn roles(s: &[u8]) -> u16 {
    two(s, 4)
}

// Whether the counts and the next serial are in range.
fn counts_fit(s: &[u8]) -> bool {
    (1..65).contains(&users(s))
        & (1..33).contains(&roles(s))
        & (two(s, 6) < 513)
        & (two(s, 8) < 65)
        & (two(s, 10) < 129)
        & (four(s, 16) != 0)
}

// Whether the offsets and the total are those of the counts, and the total is the file's length.
fn is_laid_out(s: &[u8]) -> bool {
    (four(s, 20) == Part::Holdings.start(s))
        & (four(s, 24) == Part::Permissions.start(s))
        & (four(s, 28) == Part::Rules.start(s))
        & (four(s, 32) == Part::Duties.start(s))
        & (four(s, 36) == total(s))
        & (s.len() == total(s) as usize)
}

// ---- one record: a field, then the window, then the order

// The fault, where a test holds.
fn refuse_if(test: bool, fault: Fault) -> Result<(), Fault> {
    if test { Err(fault) } else { Ok(()) }
}

// Whether a set has a role that is not there.
fn is_too_high(s: &[u8], set: u32) -> bool {
    set.unbounded_shr(u32::from(roles(s))) != 0
}

// Whether the record at a place of a part is not above the one before it, by a key.
fn is_out_of_order<K: Ord + Drop, F: Fn(&[u8]) -> K>(
    s: &[u8],
    part: Part,
    place: u16,
    key: F,
) -> bool
    requires { F.IsAlwaysCallable key }
{
    match place.checked_sub(1) {
        Some(before) => key(part.record(s, place)) <= key(part.record(s, before)),
        None => false,
    }
}

// Check the holding at a place.
fn check_holding(s: &[u8], place: u16) -> Result<(), Fault> {
    let set = four(Part::Holdings.record(s, place), 0);
    refuse_if(is_too_high(s, set), Fault::Field)
}

// Check the permission at a place: they rise by action and object.
fn check_permission(s: &[u8], place: u16) -> Result<(), Fault> {
    let record = Part::Permissions.record(s, place);
    let field = (roles(s) <= two(record, 0))
        | !(2..64).contains(&two(record, 2))
        | (255 < two(record, 4));
    refuse_if(field, Fault::Field)?;
    let order = is_out_of_order(s, Part::Permissions, place, |r| (two(r, 2), two(r, 4)));
    refuse_if(order, Fault::Order)
}

// Whether a field of a rule is out of range.
fn is_rule_out(s: &[u8], record: &[u8]) -> bool {
    (1 < two(record, 0))
        | (roles(s) <= two(record, 2))
        | (roles(s) <= two(record, 4))
        | (two(record, 6) != 0)
        | is_too_high(s, four(record, 8))
        | is_too_high(s, four(record, 12))
}

// Check the rule at a place: they rise by kind and role.
fn check_rule(s: &[u8], place: u16) -> Result<(), Fault> {
    refuse_if(is_rule_out(s, Part::Rules.record(s, place)), Fault::Field)?;
    let order = is_out_of_order(s, Part::Rules, place, |r| (two(r, 0), two(r, 4)));
    refuse_if(order, Fault::Order)
}

// Whether the action, first or second of a duty is out of range.
fn is_act_out(s: &[u8], record: &[u8]) -> bool {
    let action = two(record, 6);
    let first = two(record, 8);
    let second = two(record, 10);
    if action < 2 {
        (users(s) <= first) | (roles(s) <= second)
    } else {
        (63 < action) | (255 < first) | (second != 0)
    }
}

// Whether a field of a duty is out of range.
fn is_duty_out(s: &[u8], record: &[u8]) -> bool {
    !(1..four(s, 16)).contains(&four(record, 0))
        | (users(s) <= two(record, 4))
        | is_act_out(s, record)
}

// Check the duty at a place: they rise by serial.
fn check_duty(s: &[u8], place: u16) -> Result<(), Fault> {
    let record = Part::Duties.record(s, place);
    refuse_if(is_duty_out(s, record), Fault::Field)?;
    refuse_if(four(record, 16) < four(record, 12), Fault::Window)?;
    let order = is_out_of_order(s, Part::Duties, place, |r| four(r, 0));
    refuse_if(order, Fault::Order)
}

// ---- the file

// Check the record at a place of a part.
fn check_record(s: &[u8], part: Part, place: u16) -> Result<(), Fault> {
    match part {
        Part::Holdings => check_holding(s, place),
        Part::Permissions => check_permission(s, place),
        Part::Rules => check_rule(s, place),
        Part::Duties => check_duty(s, place),
    }
}

// Check the records in file order.
fn check_records(s: &[u8]) -> Result<(), Fault> {
    for part in Part::ALL {
        for place in 0..part.count(s) {
            check_record(s, part, place)?;
        }
    }
    Ok(())
}

// Check a file.
pub(crate) fn check(s: &[u8]) -> Result<(), Fault> {
    refuse_if(s.len() < HEADER as usize, Fault::Short)?;
    refuse_if(two(s, 0) != 1, Fault::Version)?;
    refuse_if(!counts_fit(s), Fault::Counts)?;
    refuse_if(!is_laid_out(s), Fault::Layout)?;
    check_records(s)
}
