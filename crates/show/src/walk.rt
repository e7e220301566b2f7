// The walk that prints every order that the windows allow: one line each, with `yes` where every duty is
// permitted when its turn comes; else it ends with the first that is not, and `no`.
use board::{Board, Serial};
use std::io;

// No more orders are printed; the rest is only counted.
pub(crate) const MOST_LINES: u32 = 5000;

// The duties done so far, told by their serials: so many at the start of a room that is never too small,
// since no more duties are walked. It is of fixed size: nothing here allocates.
#[derive(Clone, Copy)]
pub(crate) struct Order {
    room: [u32; plain::MOST],
    length: usize,
}

impl Order {
    // No duty is done.
    pub(crate) fn empty() -> Self {
        Order {
            room: [0; plain::MOST],
            length: 0,
        }
    }

    // The order with one duty more, where it has room.
    fn with(mut self, serial: Serial) -> Self {
        if self.length < plain::MOST {
            self.room[self.length] = serial.0;
            self.length += 1;
        }
        self
    }

    // Print its serials, each with a space behind it.
    fn print(&self, rt: &impl Print) -> io::Result<()> {
        for serial in self.room.iter().take(self.length) {
            print!(rt; "{serial} ")?;
        }
        Ok(())
    }
}

// One order more: print its line, unless enough are printed, and count it.
fn with_order(rt: &impl Print, shown: u32, order: Order, permitted: bool) -> io::Result<u32> {
    if shown < MOST_LINES {
        order.print(rt)?;
        println!(rt; "{}", if permitted { "yes" } else { "no" })?;
    }
    Ok(shown.saturating_add(1))
}

// Show every order that begins with the duties done and goes on with those left: each duty that may come
// next and then the rest in the same way. A duty that is not permitted ends its order. Answered is how many
// were met by now, where so many were met before.
pub(crate) fn show_rest(
    rt: &impl Print,
    b: Board,
    left: usize,
    done: Order,
    so_far: u32,
) -> io::Result<u32> {
    if left == 0 {
        return with_order(rt, so_far, done, true);
    }
    let duties = b.duties();
    let mut shown = so_far;
    for d in duties {
        if !pool::is_held_back(duties, *d) {
            let next = done.with(d.serial);
            if permitted::permitted(&b, d.doer, d.what) {
                let rest = after::did(b, b.clock, d.serial, d.what);
                shown = show_rest(rt, rest, left - 1, next, shown)?;
            } else {
                shown = with_order(rt, shown, next, false)?;
            }
        }
    }
    Ok(shown)
}
