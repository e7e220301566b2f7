// The kinds of records.
ghost use Rattle.session.specs.Kinds.{Decodes};

// The numbers of the kinds, as a record has them; those between walk and poke, and those above poke, are no
// kind's.
pub const ADMIT: u16 = 0;

pub const ACT: u16 = 1;

pub const DO: u16 = 2;

pub const WITHDRAW: u16 = 3;

pub const CHECK: u16 = 4;

pub const SAVE: u16 = 5;

pub const WALK: u16 = 6;

pub const POKE: u16 = 9;

// What a record asks for: a call, a save of the live board, or a poke.
#[derive(Clone, Copy, PartialEq, Eq)]
pub enum Kind {
    Admit,
    Act,
    Do,
    Withdraw,
    Check,
    Save,
    Walk,
    Poke,
}

// A number that no kind has: those between walk and poke, and those above poke.
#[derive(Clone, Copy, PartialEq, Eq)]
pub struct UnknownKind(pub u16);

impl TryFrom<u16> for Kind {
    type Error = UnknownKind;

    ghost try_from_gives = { Decodes };

    fn try_from(number: u16) -> Result<Self, UnknownKind> {
        match number {
            ADMIT => Ok(Kind::Admit),
            ACT => Ok(Kind::Act),
            DO => Ok(Kind::Do),
            WITHDRAW => Ok(Kind::Withdraw),
            CHECK => Ok(Kind::Check),
            SAVE => Ok(Kind::Save),
            WALK => Ok(Kind::Walk),
            POKE => Ok(Kind::Poke),
            _ => Err(UnknownKind(number)),
        }
    }
}
