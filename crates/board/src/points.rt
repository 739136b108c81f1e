ghost use Rattle.std.specs.Prelude.{◌≡◌, true, length};
ghost use Rattle.fixed.specs.Fixed.{list_of};
ghost use Rattle.fixed.specs.Results.{Means};
ghost use Rattle.board.specs.Points.{on_board, words_at, put_at, reading, PutAll};

use crate::board::Board;
use crate::fault::BoardFault;
use fixed::list::FixedList;

// Whether each point is on a board of this size.
pub fn all_on_board(points: &[u8], size: usize) -> bool
    ensures { result ≡ on_board size points.now }
{
    points.iter().all(|point| usize::from(*point) < size)
}

// The words at up to 8 points, in their order.
pub fn read_words<B: Board>(board: &B, points: &[u8]) -> Result<FixedList<u32, 8>, BoardFault>
    ensures { Means list_of (reading (B.words board.now) points.now) result }
{
    if points.len() > 8 {
        return Err(BoardFault::WrongLength);
    }
    // No memory may be wanted here, so a list that lies in place is filled, and none is collected.
    let mut words = FixedList::new(0);
    for point in points {
        let word = board.word(usize::from(*point))?;
        // there is room for 8
        let _ = words.push(word);
    }
    Ok(words)
}

// Puts a word at each point. Everything is looked at before the first word is put, so a refusal leaves the board as it was.
pub fn put_words<B: Board>(board: &mut B, points: &[u8], new: &[u32]) -> Result<(), BoardFault>
    ensures { PutAll (B.words board.old) points.now new.now result (B.words board.new) }
{
    if new.len() != points.len() {
        return Err(BoardFault::WrongLength);
    }
    if !all_on_board(points, board.size()) {
        return Err(BoardFault::NotOnBoard);
    }
    for (point, word) in points.iter().zip(new) {
        board.put(usize::from(*point), *word)?;
    }
    Ok(())
}
