// Document 01's small boards 1 to 11 as files. User 0 holds role 0; user 1 holds nothing unless said. Use of
// action 2 on object 0 needs role 1. Role 0 assigns and revokes role 1 without condition. Serials from 1 in
// the order given. Clock 0.
ghost use Rattle.std.specs.Prelude.{◌≤◌, length};

use crate::wanted::Wanted;
use arrayvec::ArrayVec;

// How many files there are: 1 to 11, and the second boards of 6 and 9.
pub(crate) const FILES: u8 = 13;

// Roles of user 1.
const NOTHING: u16 = 0;

const ROLE_1: u16 = 2;

// The bytes of a board file.
pub(crate) type File = ArrayVec<u8, 256>;

// A board file that is opened: what the case is called, and what document 01 says of opening it.
#[derive(Drop)]
pub(crate) struct Opening {
    pub name: &'static str,
    pub file: File,
    pub wanted: Wanted,
}

// A duty: who is to do what, from start to end.
#[derive(Clone, Copy)]
struct Planned {
    doer: u16,
    action: u16,
    first: u16,
    second: u16,
    start: u16,
    end: u16,
}

// ---- the duties

// User 0 grants a role to user 1. G is the grant of role 1.
fn grant_of(role: u16, start: u16, end: u16) -> Planned {
    Planned {
        doer: 0,
        action: 0,
        first: 1,
        second: role,
        start,
        end,
    }
}

fn grant(start: u16, end: u16) -> Planned {
    grant_of(1, start, end)
}

// R: user 0 revokes role 1 from user 1.
fn revoke(start: u16, end: u16) -> Planned {
    Planned {
        doer: 0,
        action: 1,
        first: 1,
        second: 1,
        start,
        end,
    }
}

// User 1 uses an action on object 0. U is the use of action 2.
fn use_of(action: u16, start: u16, end: u16) -> Planned {
    Planned {
        doer: 1,
        action,
        first: 0,
        second: 0,
        start,
        end,
    }
}

fn uses(start: u16, end: u16) -> Planned {
    use_of(2, start, end)
}

// ---- the files

// Put halves of two bytes each, the low byte first. Nothing is put past the end of the room.
fn put(file: &mut File, halves: &[u16]) {
    for half in halves {
        file.try_extend_from_slice(&half.to_le_bytes()).ok();
    }
}

// The file of a board on which user 1 holds a set of roles, with these duties. With a third role, which role
// 0 assigns and which role 1 bars, comes its rule.
fn file_of(held: u16, roles: u16, duties: &[Planned]) -> File
    requires roles { roles ≤ 3 }
    requires duties { length duties.now ≤ 3 }
{
    let count = duties.len() as u16;
    let duties_at = 54 + 16 * roles;
    let end = duties_at + 20 * count;
    let mut file = File::new();
    put(
        &mut file,
        &[1, 2, roles, 1, roles, count, 0, 0, 1 + count, 0],
    );
    put(&mut file, &[40, 0, 48, 0, 54, 0, duties_at, 0, end, 0]);
    put(&mut file, &[1, 0, held, 0]);
    put(&mut file, &[1, 2, 0]);
    put(&mut file, &[0, 0, 1, 0, 0, 0, 0, 0]);
    if roles == 3 {
        put(&mut file, &[0, 0, 2, 0, 0, 0, ROLE_1, 0]);
    }
    put(&mut file, &[1, 0, 1, 0, 0, 0, 0, 0]);
    for (i, d) in duties.iter().enumerate() {
        let serial = 1 + i as u16;
        put(
            &mut file,
            &[
                serial, 0, d.doer, d.action, d.first, d.second, d.start, 0, d.end, 0,
            ],
        );
    }
    file
}

// The board with two roles.
fn small(held: u16, duties: &[Planned]) -> File
    requires { length duties.now ≤ 3 }
{
    file_of(held, 2, duties)
}

fn opens(name: &'static str, file: File, wanted: Wanted) -> Opening {
    Opening { name, file, wanted }
}

// Opened, with these roles of user 1 and so many open duties.
fn green(held: u16, open: u16) -> Wanted {
    Wanted::done(u32::from(held), open)
}

// Red, with this failing order: it is refused, and the smallest board has no duty.
fn red(order: &'static [u32]) -> Wanted {
    Wanted::red(order, u32::from(NOTHING), 0)
}

// The k-th board, from 1 on: document 01's number, and then the second boards of 6 and 9. An array of them
// would be no plainer: all files would be made at once.
pub(crate) fn opening_of(k: u8) -> Opening {
    match k {
        1 => opens("1", small(NOTHING, &[]), green(NOTHING, 0)),
        2 => opens(
            "2",
            small(NOTHING, &[grant(7, 9), uses(12, 20)]),
            green(NOTHING, 2),
        ),
        3 => opens(
            "3",
            small(NOTHING, &[grant(7, 12), uses(12, 20)]),
            red(&[2]),
        ),
        4 => opens(
            "4",
            small(NOTHING, &[grant(7, 11), uses(12, 20)]),
            green(NOTHING, 2),
        ),
        5 => opens(
            "5",
            small(ROLE_1, &[revoke(5, 15), uses(12, 20)]),
            red(&[1, 2]),
        ),
        6 => opens(
            "6",
            small(ROLE_1, &[uses(12, 20), revoke(20, 30)]),
            red(&[2, 1]),
        ),
        7 => {
            let duties = [revoke(1, 3), grant(5, 6), uses(8, 9)];
            opens("7", small(ROLE_1, &duties), green(ROLE_1, 3))
        }
        8 => {
            let duties = [revoke(1, 5), grant(5, 6), uses(8, 9)];
            opens("8", small(ROLE_1, &duties), red(&[2, 1, 3]))
        }
        9 => opens(
            "9",
            small(NOTHING, &[grant(7, 7), uses(8, 8)]),
            green(NOTHING, 2),
        ),
        10 => opens("10", small(NOTHING, &[use_of(3, 12, 20)]), red(&[1])),
        11 => opens(
            "11",
            file_of(NOTHING, 3, &[grant(1, 5), grant_of(2, 3, 8)]),
            red(&[1, 2]),
        ),
        12 => opens(
            "6b",
            small(ROLE_1, &[uses(12, 20), revoke(21, 30)]),
            green(ROLE_1, 2),
        ),
        _ => opens("9b", small(NOTHING, &[grant(7, 7), uses(7, 7)]), red(&[2])),
    }
}
