ghost use Rattle.std.specs.Prelude.{◌≡◌};
ghost use Rattle.board.specs.Plain.{Laid};

use crate::board::Board;
use crate::fault::BoardFault;
use crate::plain::PlainBoard;

impl<'a> PlainBoard<'a> {
    // A board on 1 to 256 words; a slice of another length is handed back as it was.
    pub fn new(cells: &'a mut [u32]) -> Result<PlainBoard<'a>, (&'a mut [u32], BoardFault)>
        ensures { Laid cells.entry result }
    {
        if cells.is_empty() || cells.len() > 256 {
            return Err((cells, BoardFault::WrongLength));
        }
        Ok(PlainBoard { cells })
    }

    // The words themselves, where the board is no longer wanted.
    pub fn into_cells(self) -> &'a mut [u32]
        ensures { result.now ≡ self.entry.cells.now }
    {
        let PlainBoard { cells } = self;
        cells
    }
}

impl Board for PlainBoard<'_> {
    ghost words = { λ b. b.cells.now };

    fn size(&self) -> usize {
        self.cells.len()
    }

    fn word(&self, point: usize) -> Result<u32, BoardFault> {
        self.cells.get(point).copied().ok_or(BoardFault::NotOnBoard)
    }

    fn put(&mut self, point: usize, word: u32) -> Result<(), BoardFault> {
        // Of a write through `get_mut` a proof is told no word, so the place is tested first.
        if point >= self.cells.len() {
            return Err(BoardFault::NotOnBoard);
        }
        self.cells[point] = word;
        Ok(())
    }
}
