ghost use Rattle.std.specs.Prelude.{◌≡◌, ℕ, List, length};
ghost use Rattle.board.specs.Boards.{Read, Put};

use crate::fault::BoardFault;

// A board means its words, one for each point below its size.
pub trait Board {
    ghost words: { Self → List ℕ };

    fn size(&self) -> usize
        ensures { result ≡ length (words self.now) };

    fn word(&self, point: usize) -> Result<u32, BoardFault>
        ensures { Read (words self.now) point result };

    // Sets the word at a point, and no other.
    fn put(&mut self, point: usize, word: u32) -> Result<(), BoardFault>
        ensures { Put (words self.old) point word result (words self.new) };
}

// A board that is lent is a board: so what lies over a board can hold it or borrow it.
impl<B: Board> Board for &mut B {
    ghost words = { λ b. B.Board.words b.now };

    fn size(&self) -> usize {
        (**self).size()
    }

    fn word(&self, point: usize) -> Result<u32, BoardFault> {
        (**self).word(point)
    }

    fn put(&mut self, point: usize, word: u32) -> Result<(), BoardFault> {
        (**self).put(point, word)
    }
}
