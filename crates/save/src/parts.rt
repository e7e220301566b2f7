// The records of a part put in turn.
ghost use Rattle.std.specs.Prelude.{length};
ghost use Rattle.put.specs.Writes.{HasRoom, Writes};
ghost use Rattle.save.specs.FileOf.{part};

use crate::stored::Stored;
use put::Writer;

pub(crate) fn put_part<T: Stored>(records: &[T], file: &mut Writer<'_>)
    requires { HasRoom (length (part T.bytes records.now)) file.old }
    ensures { Writes (part T.bytes records.now) file.old file.new }
{
    for record in records {
        record.put(file);
    }
}
