// The tests of the counts and of one record, which the file reader, the requests and the test of a whole
// board value share.
#![tactic(auto)]

ghost use Rattle.std.specs.Prelude.{◌≡◌};
ghost use Rattle.board.specs.Doing.{what_of, second_fits};
ghost use Rattle.board.specs.Good as g;
ghost use Rattle.records.specs.Pairs.{join};

use board::{Board, Counts, Duty, Permission, Rule, Serial, What};

// ---- counts

// Whether every count and the next serial is in its range.
pub fn counts_fit(counts: Counts, next: Serial) -> bool
    ensures { result ≡ g.counts_fit counts next.0 }
{
    let users = counts.users as usize;
    let roles = counts.roles as usize;
    let permissions = counts.permissions as usize;
    let rules = counts.rules as usize;
    let duties = counts.duties as usize;
    ((1 <= users) & (users <= Board::USERS))
        & (((1 <= roles) & (roles <= Board::ROLES))
            & ((permissions <= Board::PERMISSIONS)
                & ((rules <= Board::RULES)
                    & ((duties <= Board::DUTIES) & ((1 <= next.0) & (next.0 <= Board::NEXT))))))
}

// ---- one record: each kind has its own fields and its own rule, so there is a test for each

// Whether no bit at or above the role count is set.
#[tactic(auto, using(crate::proofs::Sets::shifted_out, crate::proofs::Sets::all_below))]
pub fn set_fits(set: u32, roles: u16) -> bool
    ensures { result ≡ g.set_fits roles set }
{
    set.checked_shr(roles as u32).unwrap_or(0) == 0
}

// Whether the action is one of a use, and the object is in range.
fn use_fits(action: u16, object: u16) -> bool
    ensures { result ≡ g.use_fits action object }
{
    (2 <= action) & ((action < Board::ACTIONS) & (object < Board::OBJECTS))
}

// Whether the fields of a permission are in range.
pub fn permission_fits(p: Permission, roles: u16) -> bool
    ensures { result ≡ g.permission_fits roles p }
{
    (p.role < roles) & use_fits(p.action, p.object)
}

// Whether the fields of a rule are in range.
pub fn rule_fits(r: Rule, roles: u16) -> bool
    ensures { result ≡ g.rule_fits roles r }
{
    (r.kind < 2)
        & ((r.actor < roles)
            & ((r.role < roles) & (set_fits(r.wanted, roles) & set_fits(r.barred, roles))))
}

// Whether the fields of what is to be done are in range.
pub fn what_fits(what: What, users: u16, roles: u16) -> bool
    ensures { result ≡ g.what_fits users roles what }
{
    match what {
        What::Grant { target, role } | What::Revoke { target, role } => (target < users)
            & (role < roles),
        What::Use { action, object } => use_fits(action, object),
    }
}

// Whether the fields of a duty but its window are in range.
pub fn duty_fits(d: Duty, users: u16, roles: u16, next: Serial) -> bool
    ensures { result ≡ g.duty_fits users roles next.0 d }
{
    (Serial(0) < d.serial)
        & ((d.serial < next) & ((d.doer < users) & what_fits(d.what, users, roles)))
}

// A pair of numbers as one number: by the first and then by the second, pairs are ordered as these are.
pub fn joined(a: u16, b: u16) -> u32
    ensures { result ≡ join a b }
{
    a as u32 * 65536 + (b as u32)
}

// Whether a permission is below another, by action and then object: compared as one number.
#[tactic(auto, using(crate::proofs::Pairs::joined_below))]
pub fn permission_below(p: Permission, q: Permission) -> bool
    ensures { result ≡ g.permission_below p q }
{
    joined(p.action, p.object) < joined(q.action, q.object)
}

// Whether a rule is below another, by kind and then role.
pub fn rule_below(r: Rule, s: Rule) -> bool
    ensures { result ≡ g.rule_below r s }
{
    (r.kind, r.role) < (s.kind, s.role)
}

// Whether a duty is below another, by serial.
pub fn duty_below(d: Duty, e: Duty) -> bool
    ensures { result ≡ g.duty_below d e }
{
    d.serial < e.serial
}

// ---- what is to be done, told by numbers

// What an action, a first and a second say is to be done.
pub fn what_of(action: u16, first: u16, second: u16) -> What
    ensures { result ≡ what_of action first second }
{
    match action {
        0 => What::Grant {
            target: first,
            role: second,
        },
        1 => What::Revoke {
            target: first,
            role: second,
        },
        _ => What::Use {
            action,
            object: first,
        },
    }
}

// Whether the second number of a use is 0.
pub fn second_fits(action: u16, second: u16) -> bool
    ensures { result ≡ second_fits action second }
{
    ((action == 0) | (action == 1)) | (second == 0)
}
