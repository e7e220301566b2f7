// The first faulty record of a board file: its parts, and the records of each.
ghost use Rattle.std.specs.Prelude.{◌≡◌, ◌<◌};
ghost use Rattle.board.specs.Refusals.{number_answered};
ghost use Rattle.file.specs.Records.{first_fault};
ghost use Rattle.file.specs.Parts.{size_of, fault_at};

use crate::faults;
use crate::fields::{Holding, Record};
use crate::laid::Laid;
use board::{Counts, Duty, Permission, Refusal, Rule};

// A part of the file.
#[derive(Clone, Copy)]
pub(crate) enum Part {
    Holdings,
    Permissions,
    Rules,
    Duties,
}

impl Part {
    // The parts, in the order of the file.
    const ALL: [Part; 4] = [Part::Holdings, Part::Permissions, Part::Rules, Part::Duties];

    // How many records it has.
    fn size(self, counts: Counts) -> usize
        ensures { result ≡ size_of counts self }
    {
        match self {
            Part::Holdings => Holding::size(counts),
            Part::Permissions => Permission::size(counts),
            Part::Rules => Rule::size(counts),
            Part::Duties => Duty::size(counts),
        }
    }

    // The fault of its record of this number.
    fn fault_at(self, file: &Laid, i: usize) -> Result<(), Refusal>
        requires { i < size_of file.now.counts self }
        ensures { number_answered result ≡ fault_at file.now.bytes.now self i }
    {
        match self {
            Part::Holdings => faults::fault_at::<Holding>(file, i),
            Part::Permissions => faults::fault_at::<Permission>(file, i),
            Part::Rules => faults::fault_at::<Rule>(file, i),
            Part::Duties => faults::fault_at::<Duty>(file, i),
        }
    }
}

// The fault of the first faulty record in file order: the parts in turn, and the records of each.
pub(crate) fn first_fault(file: &Laid) -> Result<(), Refusal>
    ensures { number_answered result ≡ first_fault file.now.bytes.now }
{
    let mut found = Ok(());
    'parts: for part in Part::ALL {
        for i in 0..part.size(file.counts) {
            found = part.fault_at(file, i);
            if found.is_err() {
                break 'parts;
            }
        }
    }
    found
}
