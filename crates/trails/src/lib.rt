// The failing order: the trail of the duty that gets stuck and the one that spoils it, done duty by duty and
// cut after the first that is not permitted.
#![tactic(auto)]

ghost use Rattle.std.specs.Prelude.{◌≡◌, length, get_or};
ghost use Rattle.board.specs.Filler.{no_duty};
ghost use Rattle.in_order.specs.InOrder.{by_keys};
ghost use Rattle.trails.specs.Walking.{in_trail, meets_ask, walking, do_one};
ghost use Rattle.trails.specs.Walking.{ask_at, PartDone, Found, Walked, Written};

use asks::Ask;
use board::{Board, Duty, Serial};

// The open duties, what is asked for each, and the keys that put them in order of start.
#[derive(Clone, Copy)]
pub struct Open<'a> {
    pub duties: &'a [Duty],
    pub asks: &'a [Option<Ask>],
    pub keys: &'a [u64],
}

impl Open<'_> {
    // The duty at a place; filler beyond them.
    fn duty(&self, place: usize) -> Duty
        ensures { result ≡ get_or self.now.duties.now place no_duty }
    {
        self.duties.get(place).copied().unwrap_or(Duty::filler())
    }

    // What is asked for the duty at a place.
    fn ask(&self, place: usize) -> Option<Ask>
        ensures { result ≡ get_or self.now.asks.now place None }
    {
        self.asks.get(place).copied().flatten()
    }

    // The first duty with the serial, and what is asked for it.
    fn with_serial(&self, serial: Serial) -> Option<(Duty, Option<Ask>)>
        ensures { Found self.now.duties.now self.now.asks.now serial.0 result }
    {
        let place = self.duties.iter().position(|d| d.serial == serial)?;
        Some((self.duties[place], self.ask(place)))
    }
}

// A duty was not permitted; so many serials are written, its own the last.
#[derive(Clone, Copy)]
struct Stuck {
    pub length: usize,
}

// Whether y stands early in the trail of x and d, or between the two.
fn in_trail(y: Duty, x: Duty, d: Duty, late: bool) -> bool
    ensures { result ≡ in_trail late x d y }
{
    if late {
        return windows::wholly_before(x, y) && windows::wholly_before(y, d);
    }
    (windows::wholly_before(y, d) || windows::wholly_before(y, x))
        && !(windows::wholly_before(x, y) || y.serial == x.serial)
}

// Whether the holdings meet what is asked of the doer.
fn meets_ask(holdings: &[u32; Board::USERS], doer: u16, ask: Option<Ask>) -> bool
    ensures { result ≡ meets_ask holdings.now doer ask }
{
    let Some(ask) = ask else {
        return false;
    };
    let own = permitted::held_by(holdings, doer);
    let theirs = permitted::held_by(holdings, ask.target);
    roles::holds(own, ask.actor) & permitted::meets(theirs, ask.wanted, ask.barred)
}

// Do one duty more, if the list has room at the place behind what is written: write its serial there, and
// make its change where it is permitted. The next place is answered.
fn do_one(
    y: Duty,
    ask: Option<Ask>,
    at: usize,
    holdings: &mut [u32; Board::USERS],
    list: &mut [u32],
) -> Result<usize, Stuck>
    ensures { walking holdings.new result list.new
        ≡ do_one ask (walking holdings.old (Ok at) list.old) y }
{
    if list.len() <= at {
        return Ok(at);
    }
    let next = at + 1;
    list[at] = y.serial.0;
    if !meets_ask(holdings, y.doer, ask) {
        return Err(Stuck { length: next });
    }
    permitted::make_change(holdings, y.what);
    Ok(next)
}

// Do those of the duties, in the order of the keys, that stand early in the trail of x and d, or between the
// two.
fn do_part(
    all: Open<'_>,
    x: Duty,
    d: Duty,
    late: bool,
    at: usize,
    holdings: &mut [u32; Board::USERS],
    list: &mut [u32],
) -> Result<usize, Stuck>
    ensures { PartDone (by_keys all.entry.duties.now (length all.entry.keys.now) all.entry.keys.now)
        (ask_at all.entry.asks.now all.entry.keys.now) (in_trail late x d)
        (walking holdings.old (Ok at) list.old)
        (walking holdings.new result list.new) }
{
    let mut next = at;
    for key in all.keys {
        let place = (*key % Board::DUTIES as u64) as usize;
        let y = all.duty(place);
        if in_trail(y, x, d, late) {
            next = do_one(y, all.ask(place), next, holdings, list)?;
        }
    }
    Ok(next)
}

// Do the trail of the duties with these two serials until one is not permitted.
fn walk(
    all: Open<'_>,
    spoiler: Serial,
    stuck: Serial,
    holdings: &mut [u32; Board::USERS],
    list: &mut [u32],
) -> Result<usize, Stuck>
    ensures { Walked all.entry.duties.now all.entry.asks.now all.entry.keys.now holdings.old
        spoiler.0 stuck.0 list.old (walking holdings.new result list.new) }
{
    let Some((x, x_ask)) = all.with_serial(spoiler) else {
        return Ok(0);
    };
    let Some((d, d_ask)) = all.with_serial(stuck) else {
        return Ok(0);
    };
    let first = do_part(all, x, d, false, 0, holdings, list)?;
    let second = do_one(x, x_ask, first, holdings, list)?;
    let third = do_part(all, x, d, true, second, holdings, list)?;
    do_one(d, d_ask, third, holdings, list)
}

// Do the trail of the duties with these two serials until one is not permitted: the serials stand at the
// start of the list, and their number is answered. The keys are those of the duties, in order of start.
pub fn write_order(
    all: Open<'_>,
    spoiler: Serial,
    stuck: Serial,
    holdings: [u32; Board::USERS],
    list: &mut [u32],
) -> usize
    ensures { Written all.entry.duties.now all.entry.asks.now all.entry.keys.now holdings
        spoiler.0 stuck.0 list.old list.new result }
{
    let mut sets = holdings;
    match walk(all, spoiler, stuck, &mut sets, list) {
        Ok(length) | Err(Stuck { length }) => length,
    }
}
