// The test of a whole board value, part by part: one that fails it gets answer 19.
#![tactic(auto)]

ghost use Rattle.std.specs.Prelude.{◌≡◌, Bool, ℕ, ◌<◌, take, drop};
ghost use Rattle.orders.specs.Lists.{all};
ghost use Rattle.board.specs.Good as g;
ghost use Rattle.values.specs.Places.{Tests, part_good, climbs, permission_tests, duty_tests};
ghost use Rattle.values.specs.Places.{Tells, TellsOfTwo, TellsByKey, Gives};

use board::{Board, Counts, Duty, Permission, Serial, What};

// ---- the records of a part, and what stands beyond them

// Whether these records each fit, and each is above the one before it, which is carried along.
fn part_fits<T, F: Fn(&T) -> bool, G: Fn(&T, &T) -> bool>(used: &[T], fits: F, below: G) -> bool
    requires fits { F.IsAlwaysCallable fits }
    requires below { G.IsAlwaysCallable below }
    ensures { (f : T → Bool) (r : T → T → Bool) → Tells F.Fn fits f → TellsOfTwo G.Fn below r
        → result ≡ g.part_fits f r used.now }
{
    match used.split_first() {
        Some((first, others)) => {
            if !fits(first) {
                return false;
            }
            let mut before = first;
            for x in others {
                if !fits(x) {
                    return false;
                }
                if !below(before, x) {
                    return false;
                }
                before = x;
            }
            true
        }
        None => true,
    }
}

// Whether these records each pass a test that knows the key of the one before (for the first, the bound below
// all keys), and whether the last key is below the other bound. Where keys rise, the first alone can be too
// low and the last alone too high, so the test looks at no bound: with bounds tested at each permission the
// test of a full board takes a quarter longer.
fn climbs<T, F: Fn(u32, &T) -> bool, K: Fn(&T) -> u32>(
    used: &[T],
    below_all: u32,
    test: F,
    key: K,
    above_all: u32,
) -> bool
    requires test { F.IsAlwaysCallable test }
    requires key { K.IsAlwaysCallable key }
    ensures { (f : ℕ → T → Bool) (k : T → ℕ) → TellsByKey F.Fn test f → Gives K.Fn key k
        → result ≡ climbs f k above_all below_all used.now }
{
    let mut before = below_all;
    for x in used {
        if !test(before, x) {
            return false;
        }
        before = key(x);
    }
    before < above_all
}

// Whether all of these are filler. Each is told, whatever those before it are, so that several are told at
// once: with `all`, which stops at the first that is not filler, the test of a small board takes a seventh
// longer. The tests that are given tell it field by field: by `==`, which stops at the first field that
// differs, it takes a fifth longer.
fn filled<T, H: Fn(&T) -> bool>(rest: &[T], is_filler: H) -> bool
    requires { H.IsAlwaysCallable is_filler }
    ensures { (z : T → Bool) → Tells H.Fn is_filler z → result ≡ all z rest.now }
{
    rest.iter().fold(true, |all, x| all & is_filler(x))
}

// The records of a part, so many as are counted, and what stands beyond them.
fn split<T>(part: &[T], count: u16) -> (&[T], &[T])
    ensures used { result.0.now ≡ take count part.now }
    ensures rest { result.1.now ≡ drop count part.now }
{
    part.split_at((count as usize).min(part.len()))
}

// Whether the records of a part each fit and are each above the one before, and whether the filler stands
// beyond them.
fn part_good<T, F: Fn(&T) -> bool, G: Fn(&T, &T) -> bool, H: Fn(&T) -> bool>(
    part: &[T],
    count: u16,
    fits: F,
    below: G,
    is_filler: H,
) -> bool
    requires fits { F.IsAlwaysCallable fits }
    requires below { G.IsAlwaysCallable below }
    requires filler { H.IsAlwaysCallable is_filler }
    ensures { (t : Tests T) → Tells F.Fn fits t.fits → TellsOfTwo G.Fn below t.below
        → Tells H.Fn is_filler t.filler → result ≡ part_good t count part.now }
{
    let (used, rest) = split(part, count);
    part_fits(used, fits, below) & filled(rest, is_filler)
}

// ---- the parts whose records have keys

// Just below the least action and object that a permission may have, as one number.
const BELOW_ALL: u32 = 2 * 65536 - 1;

// And just above the greatest.
const ABOVE_ALL: u32 = Board::ACTIONS as u32 * 65536;

// The permissions: action and object, as one number, rise.
fn permissions_good(permissions: &[Permission], count: u16, roles: u16) -> bool
    ensures { result ≡ part_good (permission_tests roles) count permissions.now }
{
    let (used, rest) = split(permissions, count);
    climbs(
        used,
        BELOW_ALL,
        |before, p| ((p.role < roles) & (p.object < Board::OBJECTS))
            & (before < records::joined(p.action, p.object)),
        |p| records::joined(p.action, p.object),
        ABOVE_ALL,
    ) & filled(
        rest,
        |p| (p.role == 0) & ((p.action == 0) & (p.object == 0)),
    )
}

// The duties: their serials rise.
fn duties_good(duties: &[Duty], counts: Counts, next: Serial) -> bool
    requires { 0 < next.0 }
    ensures { result ≡ part_good (duty_tests counts next.0) counts.duties duties.now }
{
    let (used, rest) = split(duties, counts.duties);
    climbs(
        used,
        0,
        |before, d| ((d.doer < counts.users)
            & (records::what_fits(d.what, counts.users, counts.roles) & windows::window_fits(*d)))
            & (before < d.serial.0),
        |d| d.serial.0,
        next.0,
    ) & filled(
        rest,
        |d| (d.serial == Serial(0))
            & ((d.doer == 0)
                & ((d.what == What::Grant { target: 0, role: 0 })
                    & ((d.start == 0) & (d.end == 0)))),
    )
}

// ---- the whole

// Whether a board value keeps every rule of the board file and holds the filler beyond each count.
pub fn is_good_lent(b: &Board) -> bool
    ensures { result ≡ g.good b.now }
{
    let counts = b.counts;
    let next = b.next;
    let roles = counts.roles;
    if !records::counts_fit(counts, next) {
        return false;
    }
    let holdings = part_good(
        &b.holdings,
        counts.users,
        |set| records::set_fits(*set, roles),
        |_, _| true,
        |set| *set == 0,
    );
    let permissions = permissions_good(&b.permissions, counts.permissions, roles);
    let rules = part_good(
        &b.rules,
        counts.rules,
        |r| records::rule_fits(*r, roles),
        |r, s| records::rule_below(*r, *s),
        |r| (r.kind == 0)
            & ((r.actor == 0) & ((r.role == 0) & ((r.wanted == 0) & (r.barred == 0)))),
    );
    let duties = duties_good(&b.duties, counts, next);
    holdings & (permissions & (rules & duties))
}

// The same of a board by value.
pub fn is_good(b: Board) -> bool
    ensures { result ≡ g.good b }
{
    is_good_lent(&b)
}
