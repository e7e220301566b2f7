// The records of a board file as a board has them. Zeros are read as the filler.
use crate::bytes::{four, two};
use crate::parts::Part;
use board::{Duty, Permission, Rule, Serial, What};

// A set of roles.
pub(crate) fn holding(record: &[u8]) -> u32 {
    four(record, 0)
}

// A permission.
pub(crate) fn permission(record: &[u8]) -> Permission {
    Permission {
        role: two(record, 0),
        action: two(record, 2),
        object: two(record, 4),
    }
}

// A rule.
pub(crate) fn rule(record: &[u8]) -> Rule {
    Rule {
        kind: two(record, 0),
        actor: two(record, 2),
        role: two(record, 4),
        wanted: four(record, 8),
        barred: four(record, 12),
    }
}

// What a duty is to do.
fn what(record: &[u8]) -> What {
    let first = two(record, 8);
    let second = two(record, 10);
    match two(record, 6) {
        0 => What::Grant {
            target: first,
            role: second,
        },
        1 => What::Revoke {
            target: first,
            role: second,
        },
        action => What::Use {
            action,
            object: first,
        },
    }
}

// A duty.
pub(crate) fn duty(record: &[u8]) -> Duty {
    Duty {
        serial: Serial(four(record, 0)),
        doer: two(record, 4),
        what: what(record),
        start: four(record, 12),
        end: four(record, 16),
    }
}

// More than there are records of a kind in a file that is made here.
const ROOM: usize = 32;

// The permissions, rules and duties of a file, each at the start of its room, and how many there are: rooms
// of a fixed size, since nothing here allocates.
#[derive(Clone, Copy)]
pub(crate) struct Contents {
    permissions: [Permission; ROOM],
    rules: [Rule; ROOM],
    duties: [Duty; ROOM],
    counts: [usize; 3],
}

// Put the records of a part at the start of a room, as many as it holds, and answer how many.
fn gather<T: Drop, F: Fn(&[u8]) -> T>(room: &mut [T], part: Part, s: &[u8], read: F) -> usize
    requires { F.IsAlwaysCallable read }
{
    let count = usize::from(part.count(s)).min(room.len());
    for (slot, place) in room.iter_mut().zip(0..part.count(s)) {
        *slot = read(part.record(s, place));
    }
    count
}

impl Contents {
    // Read them all.
    pub(crate) fn read(s: &[u8]) -> Contents {
        let mut permissions = [Permission::filler(); ROOM];
        let mut rules = [Rule::filler(); ROOM];
        let mut duties = [Duty::filler(); ROOM];
        let counts = [
            gather(&mut permissions, Part::Permissions, s, permission),
            gather(&mut rules, Part::Rules, s, rule),
            gather(&mut duties, Part::Duties, s, duty),
        ];
        Contents {
            permissions,
            rules,
            duties,
            counts,
        }
    }

    pub(crate) fn permissions(&self) -> &[Permission] {
        self.permissions.get(..self.counts[0]).unwrap_or(&[])
    }

    pub(crate) fn rules(&self) -> &[Rule] {
        self.rules.get(..self.counts[1]).unwrap_or(&[])
    }

    pub(crate) fn duties(&self) -> &[Duty] {
        self.duties.get(..self.counts[2]).unwrap_or(&[])
    }
}
