ghost use Rattle.std.specs.Prelude.{◌≡◌};
ghost use Rattle.board.specs.Boards.{Put};
ghost use Rattle.board.specs.Shifts.{Reached, KeptBelow};
ghost use Rattle.board.specs.Shown.{shown, Shifted};

use crate::board::Board;
use crate::fault::BoardFault;
use crate::shift::Shift;

impl<B: Board> Shift<B> {
    // A shift of at least one point, all of them on the board below; another one hands the board back.
    pub fn new(below: B, start: usize, size: usize) -> Result<Shift<B>, (B, BoardFault)>
        ensures { Shifted B.words below start size result }
    {
        let whole = below.size();
        let fits = start.checked_add(size).is_some_and(|end| end <= whole);
        if size == 0 || !fits {
            return Err((below, BoardFault::InvalidShift));
        }
        Ok(Shift { below, start, size })
    }

    // The board below, where the shift is no longer wanted.
    pub fn into_below(self) -> B
        ensures { result ≡ self.below }
    {
        let Shift { below, .. } = self;
        below
    }

    // The point below, of a point of the shift.
    fn reach(&self, point: usize) -> Result<usize, BoardFault>
        ensures { Reached (B.words self.now.below) self.now.start self.now.size point result }
    {
        if point >= self.size {
            return Err(BoardFault::NotOnBoard);
        }
        Ok(self.start + point)
    }
}

impl<B: Board> Board for Shift<B> {
    ghost words = { shown B.Board.words };

    fn size(&self) -> usize {
        self.size.min(self.below.size().saturating_sub(self.start))
    }

    fn word(&self, point: usize) -> Result<u32, BoardFault> {
        let reached = self.reach(point)?;
        self.below.word(reached)
    }

    // Of the board below one word is set too, and no other, outside the shift's range as well.
    fn put(&mut self, point: usize, word: u32) -> Result<(), BoardFault>
        ensures here { Put (shown B.words self.old) point word result (shown B.words self.new) }
        ensures below { KeptBelow (B.words self.old.below) self.old.start point word result (B.words self.new.below) }
        ensures range { (self.new.start ≡ self.old.start) × (self.new.size ≡ self.old.size) }
    {
        let reached = self.reach(point)?;
        self.below.put(reached, word)
    }
}
