// A small random board as the bytes of its file, valid by all rules of document 01: duties about 1 to 4 users
// and roles, which are the last of 64 and of 32 on some boards; up to 4 permissions, 8 rules and 6 duties.
// The random numbers stand in rows: 0, 1, 97 and 98 for the board, 2 to 5 for the users, 6 to 9 for the
// permissions, 10 to 17 for the rules, 18 to 89 for twelve tries at each duty, 90 to 96 for the windows, 99
// to 104 for the serials. Duties are made in an order in which most are permitted: so about half are green.
use crate::bytes::{put_four, put_twos};
use crate::contents::Contents;
use crate::draws::Draws;
use crate::parts::{Part, total};
use crate::rules::{Act, Held};
use board::What;
use std::ops::Range;

// ---- how many there are of each

// The rows of the permissions, and those of the rules.
const PERMISSION_ROWS: Range<u8> = 6..10;

const RULE_ROWS: Range<u8> = 10..18;

// A board to be made: its random numbers, the first user and the first role that duties are about, how many
// of each there are from these on, and how many duties.
#[derive(Clone, Copy)]
struct Plan {
    draws: Draws,
    user: u8,
    role: u8,
    users: u8,
    roles: u8,
    duties: u8,
}

// How many users or roles stand before those that duties are about: none on most boards, the most on some.
fn how_many_before(draws: Draws, column: u8, most: u8) -> u8 {
    let column = u32::from(column);
    match draws.below(97, column, 8) {
        0 => most,
        1 => draws.below(97, column + 1, most),
        _ => 0,
    }
}

// 1 to 4, and 2 or 3 most often.
fn one_to_four(draws: Draws, column: u8) -> u8 {
    let column = u32::from(column);
    1 + (draws.below(0, column, 4) + draws.below(0, column + 1, 4)) / 2
}

impl Plan {
    // The plan of a random board.
    fn by(draws: Draws) -> Plan {
        Plan {
            draws,
            user: how_many_before(draws, 0, 60),
            role: how_many_before(draws, 2, 28),
            users: one_to_four(draws, 0),
            roles: one_to_four(draws, 2),
            duties: draws.below(0, 4, 7).max(draws.below(0, 5, 7)),
        }
    }
}

impl Plan {
    // Whether the permission or the rule of a row is there: most are, but no rule for a role that is not.
    fn has(self, row: u8) -> bool {
        let is_drawn = self.draws.below(u32::from(row), 0, 16) != 0;
        is_drawn & (PERMISSION_ROWS.contains(&row) | ((row % 4 + 2) % 4 < self.roles))
    }

    // How many permissions or rules are there, of so many rows.
    fn how_many(self, rows: Range<u8>) -> u16 {
        rows.filter(|row| self.has(*row)).count() as u16
    }

    // ---- header and holdings

    // The minute near which the windows lie: some cross from one byte of a number to the next.
    fn first_minute(self) -> u32 {
        match self.draws.below(1, 0, 4) {
            0 => 0,
            1 => 250,
            2 => 65530,
            _ => 4294967200,
        }
    }

    // The clock: near the windows, or anywhere.
    fn clock(self) -> u32 {
        match self.draws.below(1, 1, 8) {
            0 => self.draws.four(98, 0),
            later => self.first_minute().saturating_add(u32::from(later)),
        }
    }

    // Put the version, the counts, the clock, the offsets and the total.
    fn put_header(self, s: &mut [u8]) {
        let counts = [
            1,
            u16::from(self.user) + u16::from(self.users),
            u16::from(self.role) + u16::from(self.roles),
            self.how_many(PERMISSION_ROWS),
            self.how_many(RULE_ROWS),
            u16::from(self.duties),
        ];
        put_twos(s, 0, &counts);
        put_four(s, 12, self.clock());
        let offsets = [
            Part::Holdings.start(s),
            Part::Permissions.start(s),
            Part::Rules.start(s),
            Part::Duties.start(s),
            total(s),
        ];
        for (offset, at) in offsets.iter().zip((20..40).step_by(4)) {
            put_four(s, at, *offset);
        }
    }

    // How many sets there are of the roles that duties are about.
    fn sets(self) -> u8 {
        match self.roles {
            1 => 2,
            2 => 4,
            3 => 8,
            _ => 16,
        }
    }

    // A set of the roles that duties are about, as the set of those roles.
    fn set_from(self, set: u8) -> u32 {
        u32::from(set).unbounded_shl(u32::from(self.role))
    }

    // A random set of the roles before these.
    fn set_before(self, number: u32) -> u32 {
        match 32u8.checked_sub(self.role) {
            Some(rest) => number.unbounded_shr(u32::from(rest)),
            None => 0,
        }
    }

    // Few of the roles; but for the first of four users the first role, and more.
    fn set_about(self, row: u32) -> u8 {
        let one = self.draws.below(row, 0, self.sets());
        let other = self.draws.below(row, 1, self.sets());
        if row == 2 { one | 1 } else { one & other }
    }

    // The set of a user, by the row of one of four users: some of the roles that duties are about, and any of
    // the roles before these.
    fn set_for(self, user: u16) -> u32 {
        let row = 2 + (u32::from(user) + 256 - u32::from(self.user)) % 4;
        self.set_from(self.set_about(row)) | self.set_before(self.draws.four(row, 2))
    }

    // Put the holdings.
    fn put_holdings(self, s: &mut [u8]) {
        for user in 0..Part::Holdings.count(s) {
            if let Some(at) = Part::Holdings.at(s, user) {
                put_four(s, at as usize, self.set_for(user));
            }
        }
    }

    // ---- permissions and rules

    // One of the roles that duties are about.
    fn role_by(self, row: u32, column: u32) -> u16 {
        u16::from(self.role) + u16::from(self.draws.below(row, column, self.roles))
    }

    // One of the users that duties are about.
    fn user_by(self, row: u32, column: u32) -> u16 {
        u16::from(self.user) + u16::from(self.draws.below(row, column, self.users))
    }

    // Put the permission of a row.
    fn put_permission(self, s: &mut [u8], row: u8) {
        let place = self.how_many(PERMISSION_ROWS.start..row);
        let role = self.role_by(u32::from(row), 1);
        if let Some(at) = Part::Permissions.at(s, place) {
            put_twos(
                s,
                at as usize,
                &[role, action_by(row / 8), object_by(row % 2)],
            );
        }
    }

    // A set of few roles, by three random numbers in a row.
    fn few_roles(self, row: u32, column: u8) -> u32 {
        let column = u32::from(column);
        let sets = self.sets();
        let one = self.draws.below(row, column, sets);
        let other = self.draws.below(row, column + 1, sets);
        let third = self.draws.below(row, column + 2, sets);
        self.set_from(one & other & third)
    }

    // Put the rule of a row.
    fn put_rule(self, s: &mut [u8], row: u8) {
        let place = self.how_many(RULE_ROWS.start..row);
        if let Some(at) = Part::Rules.at(s, place) {
            let at = at as usize;
            let kind = u16::from(14 <= row);
            let role = u16::from(self.role) + (u16::from(row) + 2) % 4;
            let row = u32::from(row);
            put_twos(s, at, &[kind, self.role_by(row, 1), role]);
            put_four(s, at + 8, self.few_roles(row, 2));
            put_four(s, at + 12, self.few_roles(row, 5));
        }
    }

    // Put the permissions and the rules that are there.
    fn put_rights(self, s: &mut [u8]) {
        for row in PERMISSION_ROWS.filter(|row| self.has(*row)) {
            self.put_permission(s, row);
        }
        for row in RULE_ROWS.filter(|row| self.has(*row)) {
            self.put_rule(s, row);
        }
    }
}

// An action that is a use.
fn action_by(which: u8) -> u16 {
    if which == 0 { 2 } else { 63 }
}

// An object.
fn object_by(which: u8) -> u16 {
    if which == 0 { 0 } else { 255 }
}

// ---- windows

// The first and the last minute of a duty.
#[derive(Clone, Copy)]
struct Window {
    start: u32,
    end: u32,
}

impl Window {
    // A window of up to three minutes for the i-th duty to come.
    fn from(draws: Draws, i: u8, start: u32) -> Window {
        let length = draws.below(90 + u32::from(i), 2, 3);
        Window {
            start,
            end: start.saturating_add(u32::from(length)),
        }
    }

    // When the window after the i-th duty's begins: past the end, at the end, or within.
    fn next_start(self, draws: Draws, i: u8) -> u32 {
        let row = 90 + u32::from(i);
        let gaps = 2 * draws.below(0, 7, 4);
        let which = draws.below(row, 0, 8);
        let more = u32::from(draws.below(row, 1, 2));
        if which < 1 + gaps {
            self.end.saturating_add(1 + more)
        } else if which < 3 + gaps {
            self.end
        } else {
            self.start.saturating_add(more)
        }
    }
}

// ---- duties

impl Plan {
    // The row for target and role: the same for all duties on some boards, so that they meet.
    fn row_for_change(self, row: u32) -> u32 {
        if self.draws.below(97, 4, 4) == 0 {
            18
        } else {
            row
        }
    }

    // A grant, a revoke or a use.
    fn act_by(self, row: u32) -> Act {
        let doer = self.user_by(row, 1);
        let change = self.row_for_change(row);
        let target = self.user_by(change, 2);
        let role = self.role_by(change, 3);
        let what = match self.draws.below(row, 0, 8) {
            0..3 => What::Grant { target, role },
            3..6 => What::Revoke { target, role },
            _ => What::Use {
                action: action_by(self.draws.below(row, 2, 2)),
                object: object_by(self.draws.below(row, 3, 2)),
            },
        };
        Act { doer, what }
    }

    // How many tries each duty has: only one on some boards.
    fn tries(self) -> u8 {
        if self.draws.below(0, 6, 16) == 0 {
            1
        } else {
            12
        }
    }

    // What the i-th duty to come is to do: the first try that is permitted and matters, or simply the first.
    fn fitting_act(self, contents: &Contents, i: u8, held: &Held) -> Act {
        let first = 18 + 12 * u32::from(i);
        (first..first + u32::from(self.tries()))
            .map(|row| self.act_by(row))
            .find(|act| contents.permit(None, held, *act) & held.matters(act.what))
            .unwrap_or(self.act_by(first))
    }

    // The place of the i-th duty to come: the places are turned, and may run backwards.
    fn place_for(self, i: u8) -> u16 {
        let turn = u16::from(self.draws.below(1, 2, self.duties));
        let i = u16::from(i);
        let place = if self.draws.below(1, 3, 2) == 0 {
            turn + i
        } else {
            turn + 300 - i
        };
        place.checked_rem(u16::from(self.duties)).unwrap_or(0)
    }

    // Put the duties, but for their serials, in the order in which they are to come.
    fn put_duties(self, s: &mut [u8]) {
        let contents = Contents::read(s);
        let mut held = Held::read(s);
        let mut window = Window::from(self.draws, 6, self.first_minute());
        for i in 0..self.duties {
            let act = self.fitting_act(&contents, i, &held);
            put_duty(s, self.place_for(i), act, window);
            held = held.after(act.what);
            window = Window::from(self.draws, i, window.next_start(self.draws, i));
        }
    }

    // ---- serials

    // How far a serial can be above the one after the last: no more on some boards, very far on others.
    fn most_between(self) -> u32 {
        match self.draws.below(98, 2, 4) {
            0 => 1,
            1 => 3,
            2 => 300,
            _ => 700000000,
        }
    }

    // How far the next serial is above the one after the last: no more, little more, or by any number.
    fn until_next(self) -> u32 {
        match self.draws.below(98, 3, 4) {
            0 => 0,
            1 => u32::from(self.draws.below(98, 4, 5)),
            2 => self.draws.four(98, 4),
            _ => u32::MAX,
        }
    }

    // Put the serials of the duties, rising by random gaps, and the next serial.
    fn put_serials(self, s: &mut [u8]) {
        let most = self.most_between();
        let mut after: u32 = 1;
        for place in 0..u16::from(self.duties) {
            let gap = self.draws.four_below(99 + u32::from(place), 0, most);
            let serial = after.saturating_add(gap);
            if let Some(at) = Part::Duties.at(s, place) {
                put_four(s, at as usize, serial);
            }
            after = serial.saturating_add(1);
        }
        put_four(s, 16, after.saturating_add(self.until_next()));
    }
}

// Put a duty, but for its serial.
fn put_duty(s: &mut [u8], place: u16, act: Act, window: Window) {
    let (action, first, second) = match act.what {
        What::Grant { target, role } => (0, target, role),
        What::Revoke { target, role } => (1, target, role),
        What::Use { action, object } => (action, object, 0),
    };
    if let Some(at) = Part::Duties.at(s, place) {
        let at = at as usize;
        put_twos(s, at + 4, &[act.doer, action, first, second]);
        put_four(s, at + 12, window.start);
        put_four(s, at + 16, window.end);
    }
}

// Put the file of a random board at the start of a buffer of zeros, and answer its length.
pub(crate) fn make(s: &mut [u8], draws: Draws) -> u32 {
    let plan = Plan::by(draws);
    plan.put_header(s);
    plan.put_holdings(s);
    plan.put_rights(s);
    plan.put_duties(s);
    plan.put_serials(s);
    total(s)
}
