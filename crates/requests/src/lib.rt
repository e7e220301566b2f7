// What the calls on the live board ask, in raw numbers, and the test of what is to be done (answer 11). A
// duty is named by its serial.
#![tactic(auto)]

ghost use Rattle.std.specs.Prelude.{◌≡◌};
ghost use Rattle.requests.specs.Requests.{doing_fits};

use board::{Counts, Serial};

// Admit: a duty to be added.
#[derive(Clone, Copy)]
pub struct RequestAdmit {
    pub doer: u16,
    pub action: u16,
    pub first: u16,
    pub second: u16,
    pub start: u32,
    pub end: u32,
    pub clock: u32,
}

// Act: something to be done now.
#[derive(Clone, Copy)]
pub struct RequestAct {
    pub doer: u16,
    pub action: u16,
    pub first: u16,
    pub second: u16,
    pub clock: u32,
}

// Do: an open duty to be done now.
#[derive(Clone, Copy)]
pub struct RequestDo {
    pub serial: Serial,
    pub clock: u32,
}

// Withdraw: an open duty to be taken off the board.
#[derive(Clone, Copy)]
pub struct RequestWithdraw {
    pub serial: Serial,
    pub clock: u32,
}

// Doer, action, first and second stand one by one in both requests, since callers build a request field by
// field from the numbers of a record: a struct of the four would be taken apart again at each use.
//
// Whether doer, action, first and second are in their ranges, and the second of a use is 0.
pub fn doing_fits(counts: Counts, doer: u16, action: u16, first: u16, second: u16) -> bool
    ensures { result ≡ doing_fits counts.users counts.roles doer action first second }
{
    let what = records::what_of(action, first, second);
    (doer < counts.users)
        & (records::what_fits(what, counts.users, counts.roles)
            & records::second_fits(action, second))
}
