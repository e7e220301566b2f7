// The duties that set a holding, in numbers, and for each the earliest end of a duty that mends what it
// spoils.
ghost use Rattle.std.specs.Prelude.{◌≡◌, map, ◌≤◌, length, take, cond};
ghost use Rattle.orders.specs.Lists.{keep};
ghost use Rattle.board.specs.Limits.{max_duties};
ghost use Rattle.troubles.specs.Setting.{sets_one, setter_of};
ghost use Rattle.troubles.specs.Mending.{earlier_mend, mend_of};

use board::{Board, Duty, Serial, What};

// The last minute.
pub(crate) const LAST_MINUTE: u32 = 4294967295;

// A duty that sets a holding, in numbers: whom it sets, the role that it grants or revokes as a set, and its
// window. With the spare number it has no gap in memory, so that room for many is cleared at once.
#[derive(Clone, Copy)]
pub(crate) struct Setter {
    pub serial: Serial,
    pub user: u16,
    pub spare: u16,
    pub grants: u32,
    pub revokes: u32,
    pub start: u32,
    pub end: u32,
}

// The duties that set a holding, at the start of the room, and their number: a room of fixed size, since
// nothing may be allocated where nothing may fail.
#[derive(Clone, Copy)]
pub(crate) struct Setters {
    pub all: [Setter; Board::DUTIES],
    pub count: usize,
}

// ---- the duties that set a holding

// What a duty sets, in numbers, if it is a grant or a revoke.
fn setter_of(d: &Duty) -> Option<Setter>
    ensures { result ≡ cond (sets_one d.now) (Some (setter_of d.now)) None }
{
    let (user, grants, revokes) = match d.what {
        What::Grant { target, role } => (target, roles::with_role(0, role), 0),
        What::Revoke { target, role } => (target, 0, roles::with_role(0, role)),
        What::Use {
            action: _,
            object: _,
        } => return None,
    };
    Some(Setter {
        serial: d.serial,
        user,
        spare: 0,
        grants,
        revokes,
        start: d.start,
        end: d.end,
    })
}

// Those of the duties that set a holding.
pub(crate) fn setters_of(duties: &[Duty]) -> Setters
    requires { length duties.now ≤ max_duties }
    ensures { (take result.count result.all ≡ map setter_of (keep sets_one duties.now))
        × (result.count ≤ max_duties) × (length result.all ≡ max_duties) }
{
    let filler = Setter {
        serial: Serial(0),
        user: 0,
        spare: 0,
        grants: 0,
        revokes: 0,
        start: 0,
        end: 0,
    };
    let mut all = [filler; Board::DUTIES];
    let mut count: usize = 0;
    for d in duties {
        if let Some(x) = setter_of(d) {
            all[count] = x;
            count += 1;
        }
    }
    Setters { all, count }
}

// The user of each of the setters, so that the inner loop reads one small number of a setter that concerns
// nobody.
pub(crate) fn users_of(setters: &[Setter]) -> [u16; Board::DUTIES]
    requires { length setters.now ≤ max_duties }
    ensures { take (length setters.now) result ≡ map (λ x. x.user) setters.now }
{
    let mut users = [0u16; Board::DUTIES];
    for (k, x) in setters.iter().enumerate() {
        users[k] = x.user;
    }
    users
}

// ---- what mends

// The earlier of `best` and the end of g, if x is wholly before g and g undoes what x sets.
fn earlier_mend(x: &Setter, best: u32, g: &Setter) -> u32
    ensures { result ≡ earlier_mend x.now best g.now }
{
    if (g.grants & x.revokes) | (g.revokes & x.grants) == 0 {
        return best;
    }
    if g.user != x.user {
        return best;
    }
    if g.start <= x.end {
        return best;
    }
    if g.end < best { g.end } else { best }
}

// The earliest end of one of the setters that mends what x spoils.
fn mend_of(x: &Setter, setters: &[Setter]) -> u32
    ensures { result ≡ mend_of setters.now x.now }
{
    setters
        .iter()
        .fold(LAST_MINUTE, |best, g| earlier_mend(x, best, g))
}

// For each of the setters the earliest end of one that mends what it spoils.
pub(crate) fn mends_of(setters: &[Setter]) -> [u32; Board::DUTIES]
    requires { length setters.now ≤ max_duties }
    ensures { take (length setters.now) result ≡ map (mend_of setters.now) setters.now }
{
    let mut mends = [LAST_MINUTE; Board::DUTIES];
    for (k, x) in setters.iter().enumerate() {
        mends[k] = mend_of(x, setters);
    }
    mends
}
