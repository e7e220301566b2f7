// What document 01 says of a case or a step, and whether that is what was told.
use board::{Answer, Refusal, Serial};

// The answer, what user 1 holds from then on, and how many duties are open.
#[derive(Clone, Copy, PartialEq, Eq)]
pub(crate) struct Told {
    pub answer: Answer,
    pub held: u32,
    pub open: u16,
}

// The same as document 01 says it, with the failing order.
#[derive(Clone, Copy)]
pub(crate) struct Wanted {
    pub told: Told,
    pub order: &'static [u32],
}

impl Wanted {
    // An answer with no failing order.
    fn plainly(answer: Answer, held: u32, open: u16) -> Self {
        Wanted {
            told: Told { answer, held, open },
            order: &[],
        }
    }

    // Done.
    pub(crate) fn done(held: u32, open: u16) -> Self {
        Wanted::admitted(0, held, open)
    }

    // Admitted under this serial.
    pub(crate) fn admitted(serial: u32, held: u32, open: u16) -> Self {
        Wanted::plainly(Answer::done(Serial(serial)), held, open)
    }

    // Refused, with no failing order.
    pub(crate) fn refused(refusal: Refusal, held: u32, open: u16) -> Self {
        Wanted::plainly(Answer::from(refusal), held, open)
    }

    // Red, with this failing order.
    pub(crate) fn red(order: &'static [u32], held: u32, open: u16) -> Self {
        let refusal = Refusal::Red {
            length: order.len(),
        };
        Wanted {
            order,
            ..Wanted::refused(refusal, held, open)
        }
    }

    // Whether this was told, with the failing order at the start of the list.
    pub(crate) fn is(&self, told: Told, list: &[u32]) -> bool {
        self.told == told && list.starts_with(self.order)
    }
}
