// What the bytes of one record of a board file say, and whether it fits. Records are numbered from 0 within
// their part.
ghost use Rattle.std.specs.Prelude.{◌≡◌, true, ◌&&◌, List, ℕ, Bool, ◌<◌, eqb};
ghost use Rattle.board.specs.declared.Counts.{Counts};
ghost use Rattle.board.specs.Filler.{no_permission, no_rule, no_duty};
ghost use Rattle.board.specs.Good as g;
ghost use Rattle.board.specs.Windows.{window_fits};
ghost use Rattle.layout.specs.Layout.{counts_of, next_of};
ghost use Rattle.file.specs.Records.{holding_at, permission_at, rule_at, rule_spare};
ghost use Rattle.file.specs.Records.{duty_at, second_fits_at};

use crate::bytes::{four_at, two_at};
use crate::laid::Laid;
use board::{Counts, Duty, Permission, Rule, Serial};

// A kind of record, one for each part of the file.
pub(crate) trait Record: Copy {
    // How many of these counts are of this kind.
    ghost size: { Counts → ℕ };

    // What the bytes say of the record of a number.
    ghost said: { List ℕ → ℕ → Self };

    // Whether its fields are in their ranges, and what is spare is 0.
    ghost fits: { List ℕ → ℕ → Bool };

    // Whether it does not end before it starts.
    ghost window: { Self → Bool };

    // Whether one is below another.
    ghost below: { Self → Self → Bool };

    // What stands beyond the last in a board.
    ghost filler: { Self };

    // How many there are.
    fn size(counts: Counts) -> usize
        ensures { result ≡ size counts };

    // The filler.
    fn filler() -> Self
        ensures { result ≡ filler };

    // The record of this number.
    fn read(file: &Laid, i: usize) -> Self
        requires { i < size file.now.counts }
        ensures { result ≡ said file.now.bytes.now i };

    // Whether the record of this number fits: its fields as they were read, and what else its bytes say.
    fn fits(self, file: &Laid, i: usize) -> bool
        requires number { i < size file.now.counts }
        requires read { self ≡ said file.now.bytes.now i }
        ensures { result ≡ fits file.now.bytes.now i };

    // Whether its window fits.
    fn window_fits(self) -> bool
        ensures { result ≡ window self };

    // Whether it is below another.
    fn is_below(self, other: Self) -> bool
        ensures { result ≡ below self other };
}

// The set of roles of a user: it has no window, and need not rise.
pub(crate) type Holding = u32;

impl Record for Holding {
    ghost size = { λ counts. counts.users };

    ghost said = { holding_at };

    ghost fits = { λ s i. g.set_fits (counts_of s).roles (holding_at s i) };

    ghost window = { λ set. true };

    ghost below = { λ set other. true };

    ghost filler = { 0 };

    fn size(counts: Counts) -> usize {
        counts.users as usize
    }

    fn filler() -> Self {
        0
    }

    fn read(file: &Laid, i: usize) -> Self {
        four_at(file.bytes, layout::HEADER + i * layout::HOLDING)
    }

    fn fits(self, file: &Laid, _i: usize) -> bool {
        records::set_fits(self, file.counts.roles)
    }

    fn window_fits(self) -> bool {
        true
    }

    fn is_below(self, _other: Self) -> bool {
        true
    }
}

impl Record for Permission {
    ghost size = { λ counts. counts.permissions };

    ghost said = { permission_at };

    ghost fits = { λ s i. g.permission_fits (counts_of s).roles (permission_at s i) };

    ghost window = { λ p. true };

    ghost below = { g.permission_below };

    ghost filler = { no_permission };

    fn size(counts: Counts) -> usize {
        counts.permissions as usize
    }

    fn filler() -> Self {
        Permission::filler()
    }

    fn read(file: &Laid, i: usize) -> Self {
        let at = layout::permissions_from(file.counts) + i * layout::PERMISSION;
        Permission {
            role: two_at(file.bytes, at),
            action: two_at(file.bytes, at + layout::PERMISSION_ACTION),
            object: two_at(file.bytes, at + layout::PERMISSION_OBJECT),
        }
    }

    fn fits(self, file: &Laid, _i: usize) -> bool {
        records::permission_fits(self, file.counts.roles)
    }

    fn window_fits(self) -> bool {
        true
    }

    fn is_below(self, other: Self) -> bool {
        records::permission_below(self, other)
    }
}

impl Record for Rule {
    ghost size = { λ counts. counts.rules };

    ghost said = { rule_at };

    ghost fits = { λ s i. g.rule_fits (counts_of s).roles (rule_at s i) && eqb (rule_spare s i) 0 };

    ghost window = { λ r. true };

    ghost below = { g.rule_below };

    ghost filler = { no_rule };

    fn size(counts: Counts) -> usize {
        counts.rules as usize
    }

    fn filler() -> Self {
        Rule::filler()
    }

    fn read(file: &Laid, i: usize) -> Self {
        let at = layout::rules_from(file.counts) + i * layout::RULE;
        Rule {
            kind: two_at(file.bytes, at),
            actor: two_at(file.bytes, at + layout::RULE_ACTOR),
            role: two_at(file.bytes, at + layout::RULE_ROLE),
            wanted: four_at(file.bytes, at + layout::RULE_WANTED),
            barred: four_at(file.bytes, at + layout::RULE_BARRED),
        }
    }

    fn fits(self, file: &Laid, i: usize) -> bool {
        let at = layout::rules_from(file.counts) + i * layout::RULE;
        let spare = two_at(file.bytes, at + layout::RULE_SPARE);
        records::rule_fits(self, file.counts.roles) & (spare == 0)
    }

    fn window_fits(self) -> bool {
        true
    }

    fn is_below(self, other: Self) -> bool {
        records::rule_below(self, other)
    }
}

impl Record for Duty {
    ghost size = { λ counts. counts.duties };

    ghost said = { duty_at };

    ghost fits = { λ s i. g.duty_fits (counts_of s).users (counts_of s).roles (next_of s) (duty_at s i)
        && second_fits_at s i };

    ghost window = { window_fits };

    ghost below = { g.duty_below };

    ghost filler = { no_duty };

    fn size(counts: Counts) -> usize {
        counts.duties as usize
    }

    fn filler() -> Self {
        Duty::filler()
    }

    fn read(file: &Laid, i: usize) -> Self {
        let at = layout::duties_from(file.counts) + i * layout::DUTY;
        Duty {
            serial: Serial(four_at(file.bytes, at)),
            doer: two_at(file.bytes, at + layout::DUTY_DOER),
            what: records::what_of(
                two_at(file.bytes, at + layout::DUTY_ACTION),
                two_at(file.bytes, at + layout::DUTY_FIRST),
                two_at(file.bytes, at + layout::DUTY_SECOND),
            ),
            start: four_at(file.bytes, at + layout::DUTY_START),
            end: four_at(file.bytes, at + layout::DUTY_END),
        }
    }

    fn fits(self, file: &Laid, i: usize) -> bool {
        let at = layout::duties_from(file.counts) + i * layout::DUTY;
        let action = two_at(file.bytes, at + layout::DUTY_ACTION);
        let second = two_at(file.bytes, at + layout::DUTY_SECOND);
        let counts = file.counts;
        records::duty_fits(self, counts.users, counts.roles, file.next())
            & records::second_fits(action, second)
    }

    fn window_fits(self) -> bool {
        windows::window_fits(self)
    }

    fn is_below(self, other: Self) -> bool {
        records::duty_below(self, other)
    }
}
