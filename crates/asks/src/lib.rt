// What every open duty asks, looked up once for all of them: a search by halving finds the permission or rule
// of each, since both rise on a good board.
#![tactic(auto)]

ghost use Rattle.std.specs.Prelude.{◌≡◌, true, ◌≤◌, ℕ, min, length, map, take};
ghost use Rattle.orders.specs.Lists.{find};
ghost use Rattle.board.specs.Good.{good};
ghost use Rattle.board.specs.Limits.{max_duties};
ghost use Rattle.board.specs.Permitted.{is_for, governs, by_permission, by_rule};
ghost use Rattle.board.specs.View.{view};
ghost use Rattle.asks.specs.Asks.{in_one_form, ask_of, AsksOf};
ghost use Rattle.asks.specs.Keys.{key_of, permission_key, rule_key, Rising};
ghost use Rattle.asks.specs.Halved.{Halved};

use board::{Board, Duty, Permission, Rule, What};

// What is asked where there is a permission or rule, in one form: the role that the doer is to hold; and of
// whom the wanted and the barred roles are asked.
#[derive(Clone, Copy)]
pub struct Ask {
    pub actor: u16,
    pub target: u16,
    pub wanted: u32,
    pub barred: u32,
}

// Two numbers in one, the first above the second, so that both are compared at once: as a pair they are
// compared with a branch more at each turn of a search.
fn joined(first: u16, second: u16) -> u32
    ensures { result ≡ key_of first second }
{
    first as u32 * 65536 + second as u32
}

// What rises by a key.
trait Keyed {
    ghost key: { Self → ℕ };

    fn key(&self) -> u32
        ensures { result ≡ Self.key self.now };
}

impl Keyed for Permission {
    ghost key = { permission_key };

    fn key(&self) -> u32 {
        joined(self.action, self.object)
    }
}

impl Keyed for Rule {
    ghost key = { rule_key };

    fn key(&self) -> u32 {
        joined(self.kind, self.role)
    }
}

// The keys of the records that there is room for, one after the other from the first place on.
fn keys<T: Keyed, const N: usize>(records: &[T]) -> [u32; N]
    ensures { take (min (length records.now) N) result ≡ map T.key (take N records.now) }
{
    let mut keys = [0; N];
    let count = records.len().min(N);
    for (i, record) in records[..count].iter().enumerate() {
        keys[i] = record.key();
    }
    keys
}

// The place that the key sought has or would have, where the keys rise. Each turn halves what is left,
// whichever way it goes, and the way is a number: with a branch at each turn, which cannot be foreseen, as in
// the library's binary search, a check of 128 different uses takes 1.3 times as long.
fn key_place(keys: &[u32], sought: u32) -> usize
    ensures { Halved keys.now (length keys.now) sought result }
{
    let mut low = 0;
    let mut left = keys.len();
    while left > 0 {
        let half = left - left / 2;
        let next = keys[low + half - 1];
        // one where the next key is below what is sought, and nothing where it is not
        let below = (sought as u64 + u32::MAX as u64 - next as u64) / 4294967296;
        low += half * below as usize;
        left -= half;
    }
    low
}

// What the permission for the action on the object asks, if there is one among permissions that rise and have
// the keys.
fn by_permission(
    permissions: &[Permission],
    keys: &[u32],
    doer: u16,
    action: u16,
    object: u16,
) -> Option<Ask>
    ensures { Rising (λ p. p.action) (λ p. p.object) permissions.now
        → keys.now ≡ map permission_key permissions.now
        → result ≡ in_one_form doer (by_permission (find (is_for action object) permissions.now)) }
{
    let sought = joined(action, object);
    let permission = permissions.get(key_place(keys, sought))?;
    if permission.key() != sought {
        return None;
    }
    Some(Ask {
        actor: permission.role,
        target: doer,
        wanted: 0,
        barred: 0,
    })
}

// What the rule of the kind and for the role asks, if there is one among rules that rise and have the keys.
fn by_rule(rules: &[Rule], keys: &[u32], kind: u16, target: u16, role: u16) -> Option<Ask>
    ensures { Rising (λ r. r.kind) (λ r. r.role) rules.now
        → keys.now ≡ map rule_key rules.now
        → result ≡ in_one_form target (by_rule target (find (governs kind role) rules.now)) }
{
    let sought = joined(kind, role);
    let rule = rules.get(key_place(keys, sought))?;
    if rule.key() != sought {
        return None;
    }
    Some(Ask {
        actor: rule.actor,
        target,
        wanted: rule.wanted,
        barred: rule.barred,
    })
}

// What is asked for the duty, on a good board whose permissions and rules have the keys.
fn ask_of(b: &Board, actions: &[u32], kinds: &[u32], d: &Duty) -> Option<Ask>
    ensures { good b.now ≡ true → actions.now ≡ map permission_key (view b.now).permissions
        → kinds.now ≡ map rule_key (view b.now).rules → result ≡ ask_of (view b.now) d.now }
{
    match d.what {
        What::Grant { target, role } => by_rule(b.rules(), kinds, 0, target, role),
        What::Revoke { target, role } => by_rule(b.rules(), kinds, 1, target, role),
        What::Use { action, object } => {
            by_permission(b.permissions(), actions, d.doer, action, object)
        }
    }
}

// What is asked for each of the duties that there is room for, on a good board.
pub fn asks_of(b: &Board, duties: &[Duty]) -> [Option<Ask>; Board::DUTIES]
    ensures { good b.now ≡ true
        → AsksOf (view b.now) duties.now (min (length duties.now) max_duties) result }
{
    let permissions = b.permissions();
    let rules = b.rules();
    let action_keys: [u32; Board::PERMISSIONS] = keys(permissions);
    let kind_keys: [u32; Board::RULES] = keys(rules);
    let actions = &action_keys[..permissions.len().min(Board::PERMISSIONS)];
    let kinds = &kind_keys[..rules.len().min(Board::RULES)];
    let mut asks = [None; Board::DUTIES];
    let count = duties.len().min(Board::DUTIES);
    for (i, d) in duties[..count].iter().enumerate() {
        asks[i] = ask_of(b, actions, kinds, d);
    }
    asks
}
