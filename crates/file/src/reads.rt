// The board that the bytes of a file say, with filler beyond each count.
ghost use Rattle.std.specs.Prelude.{◌≡◌, ◌≤◌, length, replicate};
ghost use Rattle.file.specs.Reads.{filled, board_of};

use crate::fields::Record;
use crate::laid::Laid;
use board::Board;

// Write the records of one kind at the start of a room that holds their filler.
fn fill<T: Record>(room: &mut [T], file: &Laid)
    requires fits { T.size file.now.counts ≤ length room.old }
    requires empty { room.old ≡ replicate (length room.old) T.filler }
    ensures { let s = file.now.bytes.now in
        room.new ≡ filled (T.said s) T.filler (length room.old) (T.size file.now.counts) }
{
    for i in 0..T::size(file.counts) {
        room[i] = T::read(file, i);
    }
}

// The whole board: the parts of the smallest one are filled where they stand.
#[tactic(auto, unfolding(crate::specs::Reads::board_of))]
pub(crate) fn board_of(file: &Laid) -> Board
    ensures { result ≡ board_of file.now.bytes.now }
{
    let mut board = Board::smallest();
    board.counts = file.counts;
    board.clock = file.clock();
    board.next = file.next();
    fill(&mut board.holdings, file);
    fill(&mut board.permissions, file);
    fill(&mut board.rules, file);
    fill(&mut board.duties, file);
    board
}
