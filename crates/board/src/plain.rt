ghost use Rattle.board.specs.Boards.{BoardSized};

mod calls;

// A board on lent words: the bottom of every pile.
#[derive(Drop)]
pub struct PlainBoard<'a> {
    cells: &'a mut [u32],
    ghost sized: { BoardSized cells.now },
}
