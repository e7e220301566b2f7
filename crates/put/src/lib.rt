// Bytes written to a room, one after the other.
#![tactic(auto)]

ghost use Rattle.std.specs.Prelude.{length};
ghost use Rattle.put.specs.Writes.{HasRoom, Writes, WritesNothing};

// A room, and the place in it where the next bytes go.
#[derive(Drop)]
pub struct Writer<'a> {
    pub room: &'a mut [u8],
    pub at: usize,
}

impl Writer<'_> {
    // Put bytes at the place; the next go after them. Bytes that have no room there are not put.
    pub fn put(&mut self, bytes: &[u8])
        ensures written { HasRoom (length bytes.now) self.old → Writes bytes.now self.old self.new }
        ensures no_room { (HasRoom (length bytes.now) self.old → ⊥) → WritesNothing self.old self.new }
    {
        let next = self.at.saturating_add(bytes.len());
        if next <= self.room.len() {
            self.room[self.at..next].copy_from_slice(bytes);
            self.at = next;
        }
    }
}
