// What the programs do with standard input: a reader's bytes go to the start of a room.
#![tactic(auto)]

ghost use Rattle.std.specs.Prelude.{◌≡◌, ℕ, ◌<◌, ◌≤◌, length, take, IfOk, OnErr};
ghost use Rattle.std.specs.Io.KnownBytes.{Consumes, IsAtEnd};

use std::io;
use std::io::Read;

// Reads until the room is full or the input ends, and answers how many bytes it put at the start of the room.
// These are the next bytes of the reader, in their order, and there are fewer than the room holds only where
// the input ends with them. A read that fails ends it with that error; the bytes that were read before then
// stand at the start of the room, which was not full, but how many they were is not told. That it fails only
// where a read does no clause can say, since no clause of `Read` says when that is: the programs' runs show
// it. How far a turn gets is told by the read, so `done` is no count of turns, and no `for` over the places
// of the room can stand for the loop.
pub fn read_full<R: Read>(reader: &mut R, room: &mut [u8]) -> io::Result<usize>
    ensures within { IfOk result (λ n. n ≤ length room.new) }
    ensures room { length room.new ≡ length room.old }
    ensures bytes { IfOk result (λ n.
        Consumes (R.remaining reader.old) (R.remaining reader.new) (take n room.new)) }
    ensures failed { OnErr result ((n : ℕ) × (n < length room.new)
        × Consumes (R.remaining reader.old) (R.remaining reader.new) (take n room.new)) }
    ensures end { IfOk result (λ n. n < length room.new → IsAtEnd (R.remaining reader.new)) }
{
    let mut done = 0;
    while done < room.len() {
        let n = reader.read(&mut room[done..])?;
        if n == 0 {
            return Ok(done);
        }
        done += n;
    }
    Ok(done)
}
