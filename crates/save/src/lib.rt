// Save the board as a version 1 file, at the start of a lent buffer.
#![tactic(auto)]

mod fields;
mod header;
mod parts;
mod stored;

ghost use Rattle.std.specs.Prelude.{◌≡◌, length};
ghost use Rattle.board.specs.Answers.{written_answer};
ghost use Rattle.board.specs.Refusals.{answered};
ghost use Rattle.board.specs.View.{view};
ghost use Rattle.put.specs.Writes.{HasRoom, Writes};
ghost use Rattle.save.specs.FileOf.{counts_said};
ghost use Rattle.save.specs.Saves.{saved, Saves};

use board::{Board, Refusal};
use header::put_header;
use parts::put_part;
use put::Writer;

// Put the whole file of a board whose counts are those of its records.
fn put_file(b: &Board, file: &mut Writer<'_>)
    requires counts { counts_said (view b.now) ≡ b.now.counts }
    requires room { HasRoom (length (saved b.now)) file.old }
    ensures { Writes (saved b.now) file.old file.new }
{
    put_header(b.counts, b.clock, b.next, file);
    put_part(b.users(), file);
    put_part(b.permissions(), file);
    put_part(b.rules(), file);
    put_part(b.duties(), file);
}

// Save, and answer the length of the file: 19, 20.
#[tactic(auto, using(crate::proofs::Saving::broken))]
pub fn save(b: Board, buffer: &mut [u8]) -> Result<usize, Refusal>
    ensures { Saves b buffer.old buffer.new (answered written_answer result) }
{
    if !values::is_good(b) {
        return Err(Refusal::Broken);
    }
    if buffer.len() < layout::total_of(b.counts) {
        return Err(Refusal::Room);
    }
    let mut file = Writer {
        room: buffer,
        at: 0,
    };
    put_file(&b, &mut file);
    Ok(file.at)
}
