// Document 01's "Permitted" and "Orders" once more, on the records of a small board file: at most 6 duties.
// Beside the true rules stand the shortcuts that document 01 says give a wrong verdict.
use crate::contents::{Contents, holding};
use crate::parts::Part;
use crate::shortcuts::Shortcut;
use board::{Board, Duty, Permission, Rule, Serial, What};

// ---- sets of roles

// The set of one role.
pub(crate) fn only(role: u16) -> u32 {
    1u32.unbounded_shl(u32::from(role))
}

// Whether a set has the role.
pub(crate) fn has(set: u32, role: u16) -> bool {
    set & only(role) != 0
}

// ---- what is to be done

// The doer, and what is to be done.
#[derive(Clone, Copy)]
pub(crate) struct Act {
    pub doer: u16,
    pub what: What,
}

// What a duty is to do.
fn act_of(duty: &Duty) -> Act {
    Act {
        doer: duty.doer,
        what: duty.what,
    }
}

// ---- holdings

// The set of roles of each user.
#[derive(Clone, Copy)]
pub(crate) struct Held {
    sets: [u32; Board::USERS],
}

impl Held {
    // The holdings in a file.
    pub(crate) fn read(s: &[u8]) -> Held {
        let mut sets = [0; Board::USERS];
        for (set, place) in sets.iter_mut().zip(0..Part::Holdings.count(s)) {
            *set = holding(Part::Holdings.record(s, place));
        }
        Held { sets }
    }

    // Every role for every user.
    fn full() -> Held {
        Held {
            sets: [u32::MAX; Board::USERS],
        }
    }

    // The set of a user.
    fn of(&self, user: u16) -> u32 {
        self.sets.get(usize::from(user)).copied().unwrap_or(0)
    }

    // The holdings with another set for a user.
    fn with(&self, user: u16, set: u32) -> Held {
        let mut held = *self;
        if let Some(place) = held.sets.get_mut(usize::from(user)) {
            *place = set;
        }
        held
    }

    // The holdings after something is done.
    pub(crate) fn after(&self, what: What) -> Held {
        match what {
            What::Grant { target, role } => self.with(target, self.of(target) | only(role)),
            What::Revoke { target, role } => self.with(target, self.of(target) & !only(role)),
            What::Use { .. } => *self,
        }
    }

    // Whether something to be done is a use, or changes a holding.
    pub(crate) fn matters(&self, what: What) -> bool {
        match what {
            What::Grant { target, role } => !has(self.of(target), role),
            What::Revoke { target, role } => has(self.of(target), role),
            What::Use { .. } => true,
        }
    }
}

// ---- permitted

// Whether a permission is for the action and object, and a doer with this set holds its role.
fn allows_use(p: &Permission, doer: u32, action: u16, object: u16) -> bool {
    (p.action == action) & (p.object == object) & has(doer, p.role)
}

// Whether a rule is for what is to be done: its kind is 0 for a grant and 1 for a revoke.
fn is_for(rule: &Rule, what: What) -> bool {
    match what {
        What::Grant { role, .. } => (rule.kind == 0) & (rule.role == role),
        What::Revoke { role, .. } => (rule.kind == 1) & (rule.role == role),
        What::Use { .. } => false,
    }
}

// Whether a set has all roles that a rule wants and none that it bars, unless these are forgotten.
fn meets(set: u32, rule: &Rule, forgotten: bool) -> bool {
    (set & rule.wanted == rule.wanted) & ((set & rule.barred == 0) | forgotten)
}

impl Contents {
    // Whether some permission allows a doer with this set the use.
    fn may_use(&self, doer: u32, action: u16, object: u16) -> bool {
        self.permissions()
            .iter()
            .any(|p| allows_use(p, doer, action, object))
    }

    // Whether some rule allows a doer with this set the grant or revoke on a target with that set.
    fn may_change(&self, by: Option<Shortcut>, what: What, doer: u32, target: u32) -> bool {
        let judged = if by == Some(Shortcut::OnDoer) {
            doer
        } else {
            target
        };
        let forgotten = by == Some(Shortcut::Unbarred);
        self.rules().iter().any(|rule| {
            is_for(rule, what) & has(doer, rule.actor) & meets(judged, rule, forgotten)
        })
    }

    // Whether an act is permitted by the true rules, or by a shortcut.
    pub(crate) fn permit(&self, by: Option<Shortcut>, held: &Held, act: Act) -> bool {
        let doer = held.of(act.doer);
        match act.what {
            What::Grant { target, .. } | What::Revoke { target, .. } => {
                self.may_change(by, act.what, doer, held.of(target))
            }
            What::Use { action, object } => self.may_use(doer, action, object),
        }
    }

    // The duty with a serial and its place, from 0 on.
    pub(crate) fn with_serial(&self, serial: Serial) -> Option<(usize, &Duty)> {
        self.duties()
            .iter()
            .enumerate()
            .find(|(_, duty)| duty.serial == serial)
    }
}

// ---- orders

// How many duties a small board has at most.
const DUTIES: usize = 6;

// A point in an order: whether the duty at each place is done before it, and the holdings then.
#[derive(Clone, Copy)]
pub(crate) struct Point {
    done: [bool; DUTIES],
    held: Held,
}

impl Point {
    // The point before the first duty.
    pub(crate) fn start(s: &[u8]) -> Point {
        Point {
            done: [false; DUTIES],
            held: Held::read(s),
        }
    }

    // Whether the duty at a place is not done.
    fn is_open(&self, place: usize) -> bool {
        self.done.get(place) == Some(&false)
    }

    // The point after one more duty, which stands at a place.
    pub(crate) fn after(&self, place: usize, duty: &Duty) -> Point {
        let mut point = Point {
            done: self.done,
            held: self.held.after(duty.what),
        };
        if let Some(done) = point.done.get_mut(place) {
            *done = true;
        }
        point
    }
}

// Whether a duty has to come before another: it is wholly before it, its end less than the other's start.
fn comes_before(by: Option<Shortcut>, one: &Duty, other: &Duty) -> bool {
    match by {
        Some(Shortcut::Starts) => (one.start, one.serial) < (other.start, other.serial),
        Some(Shortcut::Touching) => (one.end <= other.start) & (one.start < other.end),
        _ => one.end < other.start,
    }
}

// The records of a file, and the true rules or the shortcut by which its orders are told.
#[derive(Clone, Copy)]
pub(crate) struct Orders<'a> {
    pub contents: &'a Contents,
    pub by: Option<Shortcut>,
}

impl<'a> Orders<'a> {
    // Whether the duty at a place may come next: it is open, and no open duty has to come before it.
    pub(crate) fn may_come_next(&self, point: &Point, place: usize, duty: &Duty) -> bool {
        let duties = self.contents.duties().iter();
        let is_held_back = duties.zip(&point.done).any(|(other, done)| !*done
            & comes_before(self.by, other, duty));
        point.is_open(place) & !is_held_back
    }

    // Whether a duty revokes what another needs: with all else held, the other is not permitted without it.
    fn takes_need(&self, one: &Duty, other: &Duty) -> bool {
        let held = Held::full().after(one.what);
        let permitted = self
            .contents
            .permit(Some(Shortcut::Unbarred), &held, act_of(other));
        matches!(one.what, What::Revoke { .. }) & !permitted
    }

    // Whether a duty that is done revokes what this one needs.
    fn is_need_taken(&self, point: &Point, duty: &Duty) -> bool {
        let duties = self.contents.duties().iter();
        duties
            .zip(&point.done)
            .any(|(other, done)| *done & self.takes_need(other, duty))
    }

    // Whether a duty is permitted at this point.
    pub(crate) fn permit(&self, point: &Point, duty: &Duty) -> bool {
        let is_refused = self.by == Some(Shortcut::RevokedEarlier)
            && self.is_need_taken(point, duty);
        !is_refused && self.contents.permit(self.by, &point.held, act_of(duty))
    }
}
