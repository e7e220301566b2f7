// The board: who holds which role, permissions, rules and duties, its limits, its filler and the smallest
// board; why a call is refused, and what a call answers.
#![tactic(auto)]

ghost use Rattle.std.specs.Prelude.{◌≡◌, take};
ghost use Rattle.board.specs.Answers.{plain_answer, done_answer, written_answer};
ghost use Rattle.board.specs.Filler.{no_permission, no_rule, no_duty, smallest_board};
ghost use Rattle.board.specs.Refusals.{number_of, refused_answer};
ghost use Rattle.board.specs.View.{view};

// A duty is called by its serial and never by its place in the pool.
#[derive(Clone, Copy, PartialEq, Eq, PartialOrd, Ord)]
pub struct Serial(pub u32);

// What is to be done.
#[derive(Clone, Copy, PartialEq, Eq)]
pub enum What {
    Grant { target: u16, role: u16 },
    Revoke { target: u16, role: u16 },
    Use { action: u16, object: u16 },
}

// A duty: who is to do what, from start to end.
#[derive(Clone, Copy, PartialEq, Eq)]
pub struct Duty {
    pub serial: Serial,
    pub doer: u16,
    pub what: What,
    pub start: u32,
    pub end: u32,
}

// A use of the action on the object needs the role.
#[derive(Clone, Copy, PartialEq, Eq)]
pub struct Permission {
    pub role: u16,
    pub action: u16,
    pub object: u16,
}

// Who holds the actor role may assign (kind 0) or revoke (kind 1) the role for a target that holds every
// wanted role and no barred one. The kind is a number, since a board value may hold any, and 19 (`rule_fits`
// of specs/Good) is answered to one that is neither.
#[derive(Clone, Copy, PartialEq, Eq)]
pub struct Rule {
    pub kind: u16,
    pub actor: u16,
    pub role: u16,
    pub wanted: u32,
    pub barred: u32,
}

// What something to be done asks of the holdings: no permission or rule is there for it; the doer is to hold
// a role; or doer and target are to meet a rule.
#[derive(Clone, Copy, PartialEq, Eq)]
pub enum Asked {
    Unruled,
    Role(u16),
    Meets { target: u16, rule: Rule },
}

// How many there are of each. Room beyond a count holds the filler.
#[derive(Clone, Copy, PartialEq, Eq)]
pub struct Counts {
    pub users: u16,
    pub roles: u16,
    pub permissions: u16,
    pub rules: u16,
    pub duties: u16,
}

#[derive(Clone, Copy, PartialEq, Eq)]
pub struct Board {
    pub counts: Counts,
    pub clock: u32,
    pub next: Serial,
    pub holdings: [u32; Board::USERS],
    pub permissions: [Permission; Board::PERMISSIONS],
    pub rules: [Rule; Board::RULES],
    pub duties: [Duty; Board::DUTIES],
}

impl Permission {
    // What stands beyond the permissions.
    pub fn filler() -> Self
        ensures { result ≡ no_permission }
    {
        Permission {
            role: 0,
            action: 0,
            object: 0,
        }
    }
}

impl Rule {
    // What stands beyond the rules.
    pub fn filler() -> Self
        ensures { result ≡ no_rule }
    {
        Rule {
            kind: 0,
            actor: 0,
            role: 0,
            wanted: 0,
            barred: 0,
        }
    }
}

impl Duty {
    // What stands beyond the duties.
    pub fn filler() -> Self
        ensures { result ≡ no_duty }
    {
        Duty {
            serial: Serial(0),
            doer: 0,
            what: What::Grant { target: 0, role: 0 },
            start: 0,
            end: 0,
        }
    }
}

// As many of the records in a room as are counted, or all that the room holds.
fn counted<T>(room: &[T], count: u16) -> &[T]
    ensures { result.now ≡ take count room.now }
{
    &room[..(count as usize).min(room.len())]
}

impl Board {
    // The limits.
    pub const USERS: usize = 64;

    pub const ROLES: usize = 32;

    pub const PERMISSIONS: usize = 512;

    pub const RULES: usize = 64;

    pub const DUTIES: usize = 128;

    pub const NEXT: u32 = 4294967295;

    pub const ACTIONS: u16 = 64;

    pub const OBJECTS: u16 = 256;

    // The sets of roles of the users, so many as there are and the board has room for.
    pub fn users(&self) -> &[u32]
        ensures { result.now ≡ (view self.now).holdings }
    {
        counted(&self.holdings, self.counts.users)
    }

    // The permissions.
    pub fn permissions(&self) -> &[Permission]
        ensures { result.now ≡ (view self.now).permissions }
    {
        counted(&self.permissions, self.counts.permissions)
    }

    // The rules.
    pub fn rules(&self) -> &[Rule]
        ensures { result.now ≡ (view self.now).rules }
    {
        counted(&self.rules, self.counts.rules)
    }

    // The open duties.
    pub fn duties(&self) -> &[Duty]
        ensures { result.now ≡ (view self.now).duties }
    {
        counted(&self.duties, self.counts.duties)
    }

    // One user with no role, one role, clock 0, next serial 1, nothing else.
    pub fn smallest() -> Self
        ensures { result ≡ smallest_board }
    {
        let counts = Counts {
            users: 1,
            roles: 1,
            permissions: 0,
            rules: 0,
            duties: 0,
        };
        let permission = Permission::filler();
        let rule = Rule::filler();
        let duty = Duty::filler();
        let holdings = [0u32; Board::USERS];
        let permissions = [permission; Board::PERMISSIONS];
        let rules = [rule; Board::RULES];
        let duties = [duty; Board::DUTIES];
        let next = Serial(1);
        Board {
            counts,
            clock: 0,
            next,
            holdings,
            permissions,
            rules,
            duties,
        }
    }
}

// What a call answers: its number, the serial of a duty that was admitted (else 0), and the length of what
// stands at the start of the lent list or buffer: a failing order, or a saved file (0 where there is none).
// The promises (`Called`, `Checked`, `Saves`, `Told`) speak of it, and lines and sessions tell it in these
// numbers; a call itself gives a `Result`.
#[derive(Clone, Copy, PartialEq, Eq)]
pub struct Answer {
    pub number: u8,
    pub serial: Serial,
    pub length: usize,
}

// Why a call is refused. A red board comes with the length of a failing order, whose serials stand at the
// start of the lent list.
#[derive(Clone, Copy, PartialEq, Eq)]
pub enum Refusal {
    Short,
    Version,
    Count,
    Layout,
    Field,
    NotAbove,
    Window,
    Red { length: usize },
    List,
    Clock,
    Request,
    NotOpen,
    Outside,
    HeldBack,
    NotPermitted,
    Full,
    Spent,
    Long,
    Broken,
    Room,
    Over,
    Many,
}

impl Refusal {
    // Its number.
    pub fn number(self) -> u8
        ensures { result ≡ number_of self }
    {
        match self {
            Refusal::Short => Answer::SHORT,
            Refusal::Version => Answer::VERSION,
            Refusal::Count => Answer::COUNT,
            Refusal::Layout => Answer::LAYOUT,
            Refusal::Field => Answer::FIELD,
            Refusal::NotAbove => Answer::NOT_ABOVE,
            Refusal::Window => Answer::WINDOW,
            Refusal::Red { length: _ } => Answer::RED,
            Refusal::List => Answer::LIST,
            Refusal::Clock => Answer::CLOCK,
            Refusal::Request => Answer::REQUEST,
            Refusal::NotOpen => Answer::NOT_OPEN,
            Refusal::Outside => Answer::OUTSIDE,
            Refusal::HeldBack => Answer::HELD_BACK,
            Refusal::NotPermitted => Answer::NOT_PERMITTED,
            Refusal::Full => Answer::FULL,
            Refusal::Spent => Answer::SPENT,
            Refusal::Long => Answer::LONG,
            Refusal::Broken => Answer::BROKEN,
            Refusal::Room => Answer::ROOM,
            Refusal::Over => Answer::OVER,
            Refusal::Many => Answer::MANY,
        }
    }
}

impl From<Refusal> for Answer {
    // What a refused call answers: no serial, and with a red board the length of the failing order.
    ghost from_gives = { λ e r. r ≡ refused_answer e };

    fn from(refusal: Refusal) -> Self {
        let length = match refusal {
            Refusal::Red { length } => length,
            _ => 0,
        };
        Answer {
            number: refusal.number(),
            serial: Serial(0),
            length,
        }
    }
}

impl Answer {
    // The answer numbers.
    pub const DONE: u8 = 0;

    pub const SHORT: u8 = 1;

    pub const VERSION: u8 = 2;

    pub const COUNT: u8 = 3;

    pub const LAYOUT: u8 = 4;

    pub const FIELD: u8 = 5;

    pub const NOT_ABOVE: u8 = 6;

    pub const WINDOW: u8 = 7;

    pub const RED: u8 = 8;

    pub const LIST: u8 = 9;

    pub const CLOCK: u8 = 10;

    pub const REQUEST: u8 = 11;

    pub const NOT_OPEN: u8 = 12;

    pub const OUTSIDE: u8 = 13;

    pub const HELD_BACK: u8 = 14;

    pub const NOT_PERMITTED: u8 = 15;

    pub const FULL: u8 = 16;

    pub const SPENT: u8 = 17;

    pub const LONG: u8 = 18;

    pub const BROKEN: u8 = 19;

    pub const ROOM: u8 = 20;

    pub const OVER: u8 = 21;

    pub const MANY: u8 = 22;

    // The answer with this number, no serial and no failing order.
    pub fn plain(number: u8) -> Self
        ensures { result ≡ plain_answer number }
    {
        let serial = Serial(0);
        Answer {
            number,
            serial,
            length: 0,
        }
    }

    // Done, with the serial of the duty that was admitted; 0 where none was.
    pub fn done(serial: Serial) -> Self
        ensures { result ≡ done_answer serial.0 }
    {
        Answer {
            number: Answer::DONE,
            serial,
            length: 0,
        }
    }

    // Done, with so many bytes written to the lent buffer.
    pub fn written(length: usize) -> Self
        ensures { result ≡ written_answer length }
    {
        let serial = Serial(0);
        Answer {
            number: Answer::DONE,
            serial,
            length,
        }
    }
}
