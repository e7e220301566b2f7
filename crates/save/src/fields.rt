// The fields of one record put in turn.
ghost use Rattle.std.specs.Prelude.{◌≡◌};
ghost use Rattle.board.specs.Doing.{action_of, first_of, second_of};
ghost use Rattle.save.specs.FileOf.{permission_bytes, rule_bytes, duty_bytes};

use crate::stored::Stored;
use board::{Duty, Permission, Rule, What};
use put::Writer;

impl Stored for Permission {
    ghost bytes = { permission_bytes };

    fn put(self, file: &mut Writer<'_>) {
        self.role.put(file);
        self.action.put(file);
        self.object.put(file);
    }
}

// A rule has a spare of zero.
impl Stored for Rule {
    ghost bytes = { rule_bytes };

    fn put(self, file: &mut Writer<'_>) {
        let spare: u16 = 0;
        self.kind.put(file);
        self.actor.put(file);
        self.role.put(file);
        spare.put(file);
        self.wanted.put(file);
        self.barred.put(file);
    }
}

impl Stored for Duty {
    ghost bytes = { duty_bytes };

    fn put(self, file: &mut Writer<'_>) {
        let (action, first, second) = numbers_of(self.what);
        self.serial.0.put(file);
        self.doer.put(file);
        action.put(file);
        first.put(file);
        second.put(file);
        self.start.put(file);
        self.end.put(file);
    }
}

// What is to be done as three numbers: its action; its first, the target or the object; and its second, the
// role or 0.
fn numbers_of(what: What) -> (u16, u16, u16)
    ensures action { result.0 ≡ action_of what }
    ensures first { result.1 ≡ first_of what }
    ensures second { result.2 ≡ second_of what }
{
    match what {
        What::Grant { target, role } => (0, target, role),
        What::Revoke { target, role } => (1, target, role),
        What::Use { action, object } => (action, object, 0),
    }
}
