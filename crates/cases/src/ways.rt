// The two ways to make the calls: by value, and on a board that is lent to them.
use crate::steps::Ask;
use board::{Answer, Board, Refusal};

// What a call answers, and the board that it leaves.
#[derive(Clone, Copy)]
pub(crate) struct Left {
    pub answer: Answer,
    pub board: Board,
}

pub(crate) trait Way {
    // What stands before each line.
    const PREFIX: &'static str;

    // Open a board file.
    fn open(s: &[u8], list: &mut [u32]) -> Left;

    // Make the call that a step asks for.
    fn called(b: Board, ask: Ask, list: &mut [u32]) -> Left;
}

// What a call that answers no serial left.
fn plainly(left: (Result<(), Refusal>, Board)) -> Left {
    let (done, board) = left;
    let answer = done.map_or_else(Answer::from, |()| Answer::plain(Answer::DONE));
    Left { answer, board }
}

pub(crate) struct ByValue;

impl Way for ByValue {
    const PREFIX: &'static str = "";

    fn open(s: &[u8], list: &mut [u32]) -> Left {
        plainly(open::opened(s, list))
    }

    fn called(b: Board, ask: Ask, list: &mut [u32]) -> Left {
        let called = match ask {
            Ask::Admit(q) => admit::admit(b, list, q),
            Ask::Act(q) => act::act(b, list, q),
            Ask::Do(q) => do_duty::do_duty(b, q),
            Ask::Withdraw(q) => withdraw::withdraw(b, list, q),
        };
        let mut board = b;
        outcomes::leave(&mut board, &called);
        Left {
            answer: called.map_or_else(Answer::from, |accepted| Answer::done(accepted.serial)),
            board,
        }
    }
}

pub(crate) struct Lent;

impl Way for Lent {
    const PREFIX: &'static str = "lent ";

    fn open(s: &[u8], list: &mut [u32]) -> Left {
        plainly(lent_once::open(Board::smallest(), s, list))
    }

    fn called(b: Board, ask: Ask, list: &mut [u32]) -> Left {
        match ask {
            Ask::Admit(q) => {
                let (admitted, board) = lent_once::admit(b, list, q);
                let answer = admitted.map_or_else(Answer::from, Answer::done);
                Left { answer, board }
            }
            Ask::Act(q) => plainly(lent_once::act(b, list, q)),
            Ask::Do(q) => plainly(lent_once::do_duty(b, q)),
            Ask::Withdraw(q) => plainly(lent_once::withdraw(b, list, q)),
        }
    }
}
