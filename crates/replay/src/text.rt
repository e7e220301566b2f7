// Text on its way to a writer. It is gathered in a room, which is written out whenever it is full. A write
// fails only where that fails, with its error.
use arrayvec::ArrayVec;
use std::io;
use std::io::Write;

// How many bytes are gathered.
const ROOM: usize = 8192;

#[derive(Drop)]
pub(crate) struct Text<W> {
    writer: W,
    gathered: ArrayVec<u8, ROOM>,
}

impl<W: Write> Text<W> {
    pub(crate) fn new(writer: W) -> Self {
        Text {
            writer,
            gathered: ArrayVec::new(),
        }
    }
}

impl<W: Write> Write for Text<W> {
    fn write(&mut self, bytes: &[u8]) -> io::Result<usize> {
        if self.gathered.is_full() {
            self.flush()?;
        }
        let n = bytes.len().min(self.gathered.remaining_capacity());
        self.gathered.try_extend_from_slice(&bytes[..n]).unwrap();
        Ok(n)
    }

    fn flush(&mut self) -> io::Result<()> {
        self.writer.write_all(self.gathered.as_slice())?;
        self.gathered.clear();
        self.writer.flush()
    }
}
