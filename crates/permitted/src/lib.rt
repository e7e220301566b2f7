// One act: what it asks, whether that is met, what it changes.
#![tactic(auto)]

ghost use Rattle.std.specs.Prelude.{◌≡◌, ◌+◌, ◌*◌, ◌<◌, get_or, set};
ghost use Rattle.orders.specs.Lists.{find};
ghost use Rattle.board.specs.View.{view};
ghost use Rattle.board.specs.Permitted.{is_for, governs, by_permission, by_rule, asked_for};
ghost use Rattle.board.specs.Permitted.{held_in, needs, changed};
ghost use Rattle.orders.specs.Needs.{met};
ghost use Rattle.permitted.specs.Meets.{meets_sets};

use board::{Asked, Board, Permission, Rule, What};

// ---- what is asked: permissions and rules are found by other fields and ask other things

// An action and an object in one number, as they stand in memory, so that both are compared at once.
fn in_one(action: u16, object: u16) -> u32
    ensures { (result ≡ action + object * 65536) × (action < 65536) }
{
    action as u32 + object as u32 * 65536
}

// Whether a permission is for the action and the object.
fn is_for(p: Permission, action: u16, object: u16) -> bool
    ensures { result ≡ is_for action object p }
{
    in_one(p.action, p.object) == in_one(action, object)
}

// The permission for the action and the object.
fn permission_for(permissions: &[Permission], action: u16, object: u16) -> Option<Permission>
    ensures { result ≡ find (is_for action object) permissions.now }
{
    permissions
        .iter()
        .copied()
        .find(|p| is_for(*p, action, object))
}

// What a use of the action on the object asks: the role of its permission.
fn asked_by_use(permissions: &[Permission], action: u16, object: u16) -> Asked
    ensures { result ≡ by_permission (find (is_for action object) permissions.now) }
{
    permission_for(permissions, action, object).map_or(Asked::Unruled, |p| Asked::Role(p.role))
}

// The rule of the kind for the role.
fn rule_for(rules: &[Rule], kind: u16, role: u16) -> Option<Rule>
    ensures { result ≡ find (governs kind role) rules.now }
{
    rules
        .iter()
        .copied()
        .find(|r| r.kind == kind && r.role == role)
}

// What a grant (kind 0) or revoke (kind 1) of the role asks: that the target and the doer meet its rule.
fn asked_by_rule(rules: &[Rule], kind: u16, target: u16, role: u16) -> Asked
    ensures { result ≡ by_rule target (find (governs kind role) rules.now) }
{
    rule_for(rules, kind, role).map_or(Asked::Unruled, |rule| Asked::Meets { target, rule })
}

// What the board's permissions and rules ask for this to be done.
pub fn asked_for(b: &Board, what: What) -> Asked
    ensures { result ≡ asked_for (view b.now).permissions (view b.now).rules what }
{
    match what {
        What::Grant { target, role } => asked_by_rule(b.rules(), 0, target, role),
        What::Revoke { target, role } => asked_by_rule(b.rules(), 1, target, role),
        What::Use { action, object } => asked_by_use(b.permissions(), action, object),
    }
}

// ---- whether it is met

// The roles that a user holds, as a set. Nobody beyond the table holds any.
pub fn held_by(holdings: &[u32; Board::USERS], user: u16) -> u32
    ensures { result ≡ get_or holdings.now user 0 }
{
    holdings.get(user as usize).copied().unwrap_or(0)
}

// Whether the user holds the role.
fn holds(holdings: &[u32; Board::USERS], user: u16, role: u16) -> bool
    ensures { result ≡ held_in holdings.now (user, role) }
{
    roles::holds(held_by(holdings, user), role)
}

// Whether a set has every wanted role and no barred one: what it has in common with the wanted roles is all
// of them, and with the barred ones nothing.
pub fn meets(set: u32, wanted: u32, barred: u32) -> bool
    ensures { result ≡ meets_sets set wanted barred }
{
    (set & wanted == wanted) & (set & barred == 0)
}

// Whether the holdings meet what is asked of the doer.
pub fn is_met(holdings: &[u32; Board::USERS], doer: u16, asked: Asked) -> bool
    ensures { result ≡ met (held_in holdings.now) (needs doer asked) }
{
    match asked {
        Asked::Unruled => false,
        Asked::Role(role) => holds(holdings, doer, role),
        Asked::Meets { target, rule } => {
            holds(holdings, doer, rule.actor)
                & meets(held_by(holdings, target), rule.wanted, rule.barred)
        }
    }
}

// Whether the doer may do this now.
pub fn permitted(b: &Board, doer: u16, what: What) -> bool
    ensures { result ≡ met (held_in b.now.holdings)
        (needs doer (asked_for (view b.now).permissions (view b.now).rules what)) }
{
    is_met(&b.holdings, doer, asked_for(b, what))
}

// ---- what it changes

// Let a user's set be this one. Nobody stands beyond the table.
fn put_set(holdings: &mut [u32; Board::USERS], user: u16, new: u32)
    ensures { holdings.new ≡ set holdings.old user new }
{
    // By `get_mut` the contract did not prove: nothing is known of the table once such a loan is over.
    let place = user as usize;
    if place < holdings.len() {
        holdings[place] = new;
    }
}

// Make the change of a grant or a revoke. A use changes nothing.
pub fn make_change(holdings: &mut [u32; Board::USERS], what: What)
    ensures { holdings.new ≡ changed holdings.old what }
{
    match what {
        What::Grant { target, role } => {
            let set = held_by(holdings, target);
            put_set(holdings, target, roles::with_role(set, role));
        }
        What::Revoke { target, role } => {
            let set = held_by(holdings, target);
            put_set(holdings, target, roles::without_role(set, role));
        }
        What::Use { .. } => {}
    }
}
