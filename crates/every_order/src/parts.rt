// Where the parts of a board file and their records stand, by its counts. Beyond a count stands no record,
// and its bytes are read as zeros.
ghost use Rattle.std.specs.Prelude.{◌≤◌};

use crate::bytes::two;

// A part of a board file, after the header.
#[derive(Clone, Copy)]
pub(crate) enum Part {
    Holdings,
    Permissions,
    Rules,
    Duties,
}

// How many bytes the header has.
pub(crate) const HEADER: u32 = 40;

impl Part {
    // All of them, in file order.
    pub(crate) const ALL: [Part; 4] = [
        Part::Holdings,
        Part::Permissions,
        Part::Rules,
        Part::Duties,
    ];

    // How many records there are.
    pub(crate) fn count(self, s: &[u8]) -> u16 {
        match self {
            Part::Holdings => two(s, 2),
            Part::Permissions => two(s, 6),
            Part::Rules => two(s, 8),
            Part::Duties => two(s, 10),
        }
    }

    // How many bytes so many records have.
    fn size(self, count: u16) -> u32
        ensures { result ≤ 1310700 }
    {
        let count = u32::from(count);
        match self {
            Part::Holdings => 4 * count,
            Part::Permissions => 6 * count,
            Part::Rules => 16 * count,
            Part::Duties => 20 * count,
        }
    }

    // How many bytes all its records have.
    fn whole(self, s: &[u8]) -> u32
        ensures { result ≤ 1310700 }
    {
        self.size(self.count(s))
    }

    // The offset of the part: after the header and the parts before it.
    pub(crate) fn start(self, s: &[u8]) -> u32
        ensures { result ≤ 4000000 }
    {
        match self {
            Part::Holdings => HEADER,
            Part::Permissions => HEADER + Part::Holdings.whole(s),
            Part::Rules => HEADER + Part::Holdings.whole(s) + Part::Permissions.whole(s),
            Part::Duties => {
                HEADER + Part::Holdings.whole(s) + Part::Permissions.whole(s) + Part::Rules.whole(s)
            }
        }
    }

    // The offset of the record at a place, if it is there.
    pub(crate) fn at(self, s: &[u8], place: u16) -> Option<u32> {
        if place < self.count(s) {
            Some(self.start(s) + self.size(place))
        } else {
            None
        }
    }

    // The bytes from the record at a place on: none if it is not there.
    pub(crate) fn record(self, s: &[u8], place: u16) -> &[u8] {
        self.at(s, place)
            .and_then(|at| s.get(at as usize..))
            .unwrap_or(&[])
    }
}

// The length of the file.
pub(crate) fn total(s: &[u8]) -> u32 {
    Part::Duties.start(s) + Part::Duties.whole(s)
}
