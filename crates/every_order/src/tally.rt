// What was met on each file, the counts of it, and the lines that tell them.
use crate::reader::Fault;
use crate::shortcuts::Shortcut;
use std::io;

// What a file is: refused, or a board that is green or red.
#[derive(Clone, Copy)]
pub(crate) enum Verdict {
    Refused(Fault),
    Green,
    Red,
}

impl Verdict {
    // The number that answers it.
    pub(crate) fn number(self) -> u8 {
        match self {
            Verdict::Green => 0,
            Verdict::Refused(fault) => fault.number(),
            Verdict::Red => 8,
        }
    }
}

// What was met on a file: the verdict that the program itself finds, how many orders it walked, the length
// of the failing order that the board told, whether each shortcut would be wrong, and whether the board is
// right.
#[derive(Clone, Copy)]
pub(crate) struct Outcome {
    pub verdict: Verdict,
    pub orders: u32,
    pub length: usize,
    pub misled: [bool; Shortcut::COUNT],
    pub right: bool,
}

// The counts so far: of each number, of each shortcut, and the rest.
#[derive(Clone, Copy)]
pub(crate) struct Tally {
    numbers: [u32; 9],
    shortcuts: [u32; Shortcut::COUNT],
    orders: u32,
    longest: usize,
    pub wrong: u32,
}

impl Tally {
    // No count yet.
    pub(crate) const NOTHING: Tally = Tally {
        numbers: [0; 9],
        shortcuts: [0; Shortcut::COUNT],
        orders: 0,
        longest: 0,
        wrong: 0,
    };

    // Count one more file.
    pub(crate) fn count(&mut self, outcome: &Outcome) {
        let number = usize::from(outcome.verdict.number());
        if let Some(count) = self.numbers.get_mut(number) {
            *count = count.saturating_add(1);
        }
        for (count, misled) in self.shortcuts.iter_mut().zip(outcome.misled) {
            *count = count.saturating_add(u32::from(misled));
        }
        self.orders = self.orders.saturating_add(outcome.orders);
        self.longest = self.longest.max(outcome.length);
        self.wrong = self.wrong.saturating_add(u32::from(!outcome.right));
    }

    // The lines on the boards as made.
    pub(crate) fn print_made(&self, rt: &impl Print) -> io::Result<()> {
        println!(rt; "green {}", self.numbers[0])?;
        println!(rt; "red {}", self.numbers[8])?;
        println!(rt; "orders walked {}", self.orders)?;
        println!(rt; "longest failing order {}", self.longest)?;
        for (shortcut, count) in Shortcut::ALL.iter().zip(&self.shortcuts) {
            println!(rt; "wrong by {shortcut} {count}")?;
        }
        Ok(())
    }

    // The lines on damaged files.
    pub(crate) fn print_damaged(&self, rt: &impl Print) -> io::Result<()> {
        println!(rt; "green though damaged {}", self.numbers[0])?;
        println!(rt; "red though damaged {}", self.numbers[8])?;
        for (number, count) in self.numbers[..8].iter().enumerate().skip(1) {
            println!(rt; "refused with {number} {count}")?;
        }
        Ok(())
    }
}
