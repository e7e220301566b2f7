// The header of a board file: version and counts, clock and next serial, where the parts start, the total.
ghost use Rattle.std.specs.Prelude.{length};
ghost use Rattle.put.specs.Writes.{HasRoom, Writes};
ghost use Rattle.save.specs.FileOf.{counts_bytes, offsets_bytes, header_bytes};

use crate::stored::Stored;
use board::{Counts, Serial};
use put::Writer;

// Put the version and the counts.
fn put_counts(counts: Counts, file: &mut Writer<'_>)
    requires { HasRoom (length (counts_bytes counts)) file.old }
    ensures { Writes (counts_bytes counts) file.old file.new }
{
    layout::VERSION.put(file);
    counts.users.put(file);
    counts.roles.put(file);
    counts.permissions.put(file);
    counts.rules.put(file);
    counts.duties.put(file);
}

// Put the offsets, where each part starts, and the total length.
fn put_offsets(counts: Counts, file: &mut Writer<'_>)
    requires { HasRoom (length (offsets_bytes counts)) file.old }
    ensures { Writes (offsets_bytes counts) file.old file.new }
{
    (layout::HEADER as u32).put(file);
    (layout::permissions_from(counts) as u32).put(file);
    (layout::rules_from(counts) as u32).put(file);
    (layout::duties_from(counts) as u32).put(file);
    (layout::total_of(counts) as u32).put(file);
}

// Put the header.
pub(crate) fn put_header(counts: Counts, clock: u32, next: Serial, file: &mut Writer<'_>)
    requires { HasRoom (length (header_bytes counts clock next.0)) file.old }
    ensures { Writes (header_bytes counts clock next.0) file.old file.new }
{
    put_counts(counts, file);
    clock.put(file);
    next.0.put(file);
    put_offsets(counts, file);
}
