// What stands in a board file as bytes: numbers, the low byte first.
ghost use Rattle.std.specs.Prelude.{List, ℕ, length};
ghost use Rattle.layout.specs.Bytes.{two_bytes, four_bytes};
ghost use Rattle.put.specs.Writes.{HasRoom, Writes};

use put::Writer;

pub(crate) trait Stored: Copy {
    // Its bytes in the file.
    ghost bytes: { Self → List ℕ };

    // Put its bytes.
    fn put(self, file: &mut Writer<'_>)
        requires { HasRoom (length (bytes self)) file.old }
        ensures { Writes (bytes self) file.old file.new };
}

impl Stored for u16 {
    ghost bytes = { two_bytes };

    fn put(self, file: &mut Writer<'_>) {
        put_bytes(&u16::to_le_bytes(self), file);
    }
}

impl Stored for u32 {
    ghost bytes = { four_bytes };

    fn put(self, file: &mut Writer<'_>) {
        put_bytes(&u32::to_le_bytes(self), file);
    }
}

// Put bytes that have room, with no test of it: with one at each number the whole save takes twice as long.
fn put_bytes(bytes: &[u8], file: &mut Writer<'_>)
    requires { HasRoom (length bytes.now) file.old }
    ensures { Writes bytes.now file.old file.new }
{
    let end = file.at + bytes.len();
    file.room[file.at..end].copy_from_slice(bytes);
    file.at = end;
}
