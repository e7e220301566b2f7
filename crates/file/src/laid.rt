// A board file as it is laid out: the checks of its header in document 01's order, and what stands there.
ghost use Rattle.std.specs.Prelude.{◌≡◌, true, ◌≤◌, length, IfOk};
ghost use Rattle.board.specs.Answers.{Answers};
ghost use Rattle.board.specs.Good.{counts_fit};
ghost use Rattle.board.specs.Refusals.{number_answered};
ghost use Rattle.layout.specs.Layout.{header_size, counts_of, clock_of, next_of, laid_out};
ghost use Rattle.file.specs.Reads.{header_checks};
ghost use Rattle.file.specs.Parts.{Complete};

use crate::bytes::{four_at, two_at};
use board::{Counts, Refusal, Serial};

// A file whose counts and next serial are in their ranges, and which goes on to where its last part ends.
#[derive(Clone, Copy)]
pub(crate) struct Laid<'a> {
    pub bytes: &'a [u8],
    pub counts: Counts,
    ghost complete: { Complete bytes.now counts },
    ghost in_range: { counts_fit counts (next_of bytes.now) ≡ true },
}

// The counts in the header.
fn counts_of(s: &[u8]) -> Counts
    requires { header_size ≤ length s.now }
    ensures { result ≡ counts_of s.now }
{
    Counts {
        users: two_at(s, layout::USERS_AT),
        roles: two_at(s, layout::ROLES_AT),
        permissions: two_at(s, layout::PERMISSIONS_AT),
        rules: two_at(s, layout::RULES_AT),
        duties: two_at(s, layout::DUTIES_AT),
    }
}

// The next serial in the header.
fn next_of(s: &[u8]) -> Serial
    requires { header_size ≤ length s.now }
    ensures { result.0 ≡ next_of s.now }
{
    Serial(four_at(s, layout::NEXT_AT))
}

// Whether the offsets and the total are as laid out, and the total is the slice's length.
fn laid_out(s: &[u8], counts: Counts) -> bool
    requires { (header_size ≤ length s.now) × (counts ≡ counts_of s.now) }
    ensures { result ≡ laid_out s.now }
{
    let total = four_at(s, layout::TOTAL_AT) as usize;
    (four_at(s, layout::HOLDINGS_OFFSET_AT) as usize == layout::HEADER)
        & ((four_at(s, layout::PERMISSIONS_OFFSET_AT) as usize == layout::permissions_from(counts))
            & ((four_at(s, layout::RULES_OFFSET_AT) as usize == layout::rules_from(counts))
                & ((four_at(s, layout::DUTIES_OFFSET_AT) as usize == layout::duties_from(counts))
                    & ((total == layout::total_of(counts)) & (total == s.len())))))
}

impl<'a> Laid<'a> {
    // Check the header: 1, 2, 3, 4, 18, or 0.
    pub(crate) fn check(s: &'a [u8]) -> Result<Laid<'a>, Refusal>
        ensures checks { Answers (header_checks s.now) (number_answered result) }
        ensures file { IfOk result (λ file. file.bytes.now ≡ s.now) }
    {
        if s.len() < layout::HEADER {
            return Err(Refusal::Short);
        }
        if two_at(s, layout::VERSION_AT) != layout::VERSION {
            return Err(Refusal::Version);
        }
        let counts = counts_of(s);
        if !records::counts_fit(counts, next_of(s)) {
            return Err(Refusal::Count);
        }
        if !laid_out(s, counts) {
            return Err(Refusal::Layout);
        }
        if layout::LONGEST < four_at(s, layout::TOTAL_AT) as usize {
            return Err(Refusal::Long);
        }
        Ok(Laid { bytes: s, counts })
    }

    // The clock.
    pub(crate) fn clock(&self) -> u32
        ensures { result ≡ clock_of self.now.bytes.now }
    {
        four_at(self.bytes, layout::CLOCK_AT)
    }

    // The next serial.
    pub(crate) fn next(&self) -> Serial
        ensures { result.0 ≡ next_of self.now.bytes.now }
    {
        next_of(self.bytes)
    }
}
