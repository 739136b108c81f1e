ghost use Rattle.std.specs.Prelude.{◌≡◌};
ghost use Rattle.board.specs.Refusals.{board_refusal};

use job::refusal::Refusal;
use thiserror::Error;

// Why a board, or a call on one, is refused.
#[derive(Clone, Copy, PartialEq, Eq, Debug, Error)]
pub enum BoardFault {
    // a slice or a list of another length than is wanted
    #[error("A list has another length than is wanted.")]
    WrongLength,
    // a point at or above the board's size
    #[error("A point is not on the board.")]
    NotOnBoard,
    // a shift of size 0, or beyond the board below
    #[error("A shift has at least one point, and all of its points are on the board below.")]
    InvalidShift,
}

impl From<BoardFault> for Refusal {
    ghost from_gives = { λ e r. r ≡ board_refusal e };

    fn from(fault: BoardFault) -> Refusal {
        match fault {
            BoardFault::WrongLength => Refusal::at_line(13, 0),
            BoardFault::NotOnBoard => Refusal::at_line(14, 0),
            BoardFault::InvalidShift => Refusal::at_line(15, 0),
        }
    }
}
