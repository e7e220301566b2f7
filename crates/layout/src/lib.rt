// Where everything stands in a board file: the numbers in its header, then holdings, permissions, rules and
// duties with no gaps. Every size and place is stated here alone.
#![tactic(auto)]

ghost use Rattle.std.specs.Prelude.{◌≡◌};
ghost use Rattle.layout.specs.Layout.{permissions_from, rules_from, duties_from, total_of};

use board::{Board, Counts};

// The version of the file.
pub const VERSION: u16 = 1;

// At which byte of the header each number stands.
pub const VERSION_AT: usize = 0;

pub const USERS_AT: usize = 2;

pub const ROLES_AT: usize = 4;

pub const PERMISSIONS_AT: usize = 6;

pub const RULES_AT: usize = 8;

pub const DUTIES_AT: usize = 10;

pub const CLOCK_AT: usize = 12;

pub const NEXT_AT: usize = 16;

pub const HOLDINGS_OFFSET_AT: usize = 20;

pub const PERMISSIONS_OFFSET_AT: usize = 24;

pub const RULES_OFFSET_AT: usize = 28;

pub const DUTIES_OFFSET_AT: usize = 32;

pub const TOTAL_AT: usize = 36;

// How many bytes the header and each kind of record take.
pub const HEADER: usize = 40;

pub const HOLDING: usize = 4;

pub const PERMISSION: usize = 6;

pub const RULE: usize = 16;

pub const DUTY: usize = 20;

// At which byte of its record each field stands; the first stands at 0.
pub const PERMISSION_ACTION: usize = 2;

pub const PERMISSION_OBJECT: usize = 4;

pub const RULE_ACTOR: usize = 2;

pub const RULE_ROLE: usize = 4;

pub const RULE_SPARE: usize = 6;

pub const RULE_WANTED: usize = 8;

pub const RULE_BARRED: usize = 12;

pub const DUTY_DOER: usize = 4;

pub const DUTY_ACTION: usize = 6;

pub const DUTY_FIRST: usize = 8;

pub const DUTY_SECOND: usize = 10;

pub const DUTY_START: usize = 12;

pub const DUTY_END: usize = 16;

// The longest file: every count at its limit.
pub const LONGEST: usize = HEADER
    + Board::USERS * HOLDING
    + Board::PERMISSIONS * PERMISSION
    + Board::RULES * RULE
    + Board::DUTIES * DUTY;

// Where the permissions start. Each part starts where the one before it ends, so each has its own sum.
pub fn permissions_from(counts: Counts) -> usize
    ensures { result ≡ permissions_from counts }
{
    HEADER + counts.users as usize * HOLDING
}

// Where the rules start.
pub fn rules_from(counts: Counts) -> usize
    ensures { result ≡ rules_from counts }
{
    permissions_from(counts) + counts.permissions as usize * PERMISSION
}

// Where the duties start.
pub fn duties_from(counts: Counts) -> usize
    ensures { result ≡ duties_from counts }
{
    rules_from(counts) + counts.rules as usize * RULE
}

// Where the duties end: the total length.
pub fn total_of(counts: Counts) -> usize
    ensures { result ≡ total_of counts }
{
    duties_from(counts) + counts.duties as usize * DUTY
}
