// A session: a board file and records, each of which asks for a call or pokes the live board. docs/REPLAY.md
// has the format. What the programs that read a session share.
#![tactic(auto)]

mod call;
mod input;
mod kind;
mod poke;

pub use call::called;
pub use input::{file_end, file_start, lent_by, record_of};
pub use kind::{ACT, ADMIT, CHECK, DO, Kind, POKE, SAVE, UnknownKind, WALK, WITHDRAW};
pub use poke::poked;

// How many bytes a record takes.
pub const SIZE: usize = 32;

// The longest list that is lent to a call.
pub const LENT: usize = 256;

// A record: the number of its kind, as the bytes have it, and its fields. `Kind` is made of the number, where
// it is that of a kind.
#[derive(Clone, Copy)]
pub struct Record {
    pub kind: u16,
    pub lent: u16,
    pub doer: u16,
    pub action: u16,
    pub first: u16,
    pub second: u16,
    pub start: u32,
    pub end: u32,
    pub clock: u32,
    pub serial: u32,
    pub extra: u32,
}
