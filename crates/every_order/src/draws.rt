// Random numbers, the same at each run: each board has rows of eight of them.
ghost use Rattle.std.specs.Prelude.{◌-◌, ◌≤◌};

// The bits of a number stirred.
fn stirred(number: u32) -> u32 {
    (number ^ (number >> 16)).wrapping_mul(73244475)
}

// The random numbers of a board.
#[derive(Clone, Copy)]
pub(crate) struct Draws {
    pub board: u32,
}

impl Draws {
    // The random number in a row and a column.
    fn number(self, row: u32, column: u32) -> u16 {
        let place = self
            .board
            .wrapping_mul(2048)
            .wrapping_add(row.wrapping_mul(8))
            .wrapping_add(column);
        (stirred(stirred(stirred(place))) / 65536) as u16
    }

    // One of the numbers below a bound, 0 where there is none.
    pub(crate) fn below(self, row: u32, column: u32, bound: u8) -> u8
        ensures { result ≤ bound - 1 }
    {
        if bound == 0 {
            0
        } else {
            (self.number(row, column) % u16::from(bound)) as u8
        }
    }

    // A random number of four bytes, by a column and another far from it.
    pub(crate) fn four(self, row: u32, column: u32) -> u32 {
        let high = u32::from(self.number(row, column));
        let low = u32::from(self.number(row, column % 8 + 1024));
        65536 * high + low
    }

    // One of the numbers below a bound of four bytes, 0 where there is none.
    pub(crate) fn four_below(self, row: u32, column: u32, bound: u32) -> u32 {
        self.four(row, column).checked_rem(bound).unwrap_or(0)
    }
}
