// The calls that answer a number, a serial and a failing order, each made by value on the live board.
ghost use Rattle.std.specs.Prelude.{◌≡◌};
ghost use Rattle.session.specs.Sessions.{request_admit, request_act, request_do, request_withdraw};
ghost use Rattle.session.specs.Sessions.{unchanged, Makes};

use crate::{Kind, Record};
use board::{Board, Refusal, Serial};
use outcomes::Accepted;
use requests::{RequestAct, RequestAdmit, RequestDo, RequestWithdraw};

// What a record asks of each call.
impl From<Record> for RequestAdmit {
    ghost from_gives = { λ r q. q ≡ request_admit r };

    fn from(r: Record) -> Self {
        RequestAdmit {
            doer: r.doer,
            action: r.action,
            first: r.first,
            second: r.second,
            start: r.start,
            end: r.end,
            clock: r.clock,
        }
    }
}

impl From<Record> for RequestAct {
    ghost from_gives = { λ r q. q ≡ request_act r };

    fn from(r: Record) -> Self {
        RequestAct {
            doer: r.doer,
            action: r.action,
            first: r.first,
            second: r.second,
            clock: r.clock,
        }
    }
}

impl From<Record> for RequestDo {
    ghost from_gives = { λ r q. q ≡ request_do r };

    fn from(r: Record) -> Self {
        RequestDo {
            serial: Serial(r.serial),
            clock: r.clock,
        }
    }
}

impl From<Record> for RequestWithdraw {
    ghost from_gives = { λ r q. q ≡ request_withdraw r };

    fn from(r: Record) -> Self {
        RequestWithdraw {
            serial: Serial(r.serial),
            clock: r.clock,
        }
    }
}

// What is accepted where the board stays as it is: no serial is given.
fn unchanged(b: Board) -> Accepted
    ensures { result ≡ unchanged b }
{
    Accepted {
        board: b,
        serial: Serial(0),
    }
}

// Make the call that a record asks for, with the list lent to it. Where its kind is none of these the board
// and the list stay.
pub fn called(b: Board, r: Record, list: &mut [u32]) -> Result<Accepted, Refusal>
    ensures { Makes b r list.old result list.new }
{
    let Ok(kind) = Kind::try_from(r.kind) else {
        return Ok(unchanged(b));
    };
    match kind {
        Kind::Admit => admit::admit(b, list, RequestAdmit::from(r)),
        Kind::Act => act::act(b, list, RequestAct::from(r)),
        Kind::Do => do_duty::do_duty(b, RequestDo::from(r)),
        Kind::Withdraw => withdraw::withdraw(b, list, RequestWithdraw::from(r)),
        Kind::Check => {
            verdict::check(b, list)?;
            Ok(unchanged(b))
        }
        Kind::Walk => {
            plain::walk(b, list)?;
            Ok(unchanged(b))
        }
        Kind::Save | Kind::Poke => Ok(unchanged(b)),
    }
}
