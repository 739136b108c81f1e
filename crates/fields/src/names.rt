ghost use Rattle.std.specs.Prelude.{◌≡◌};
ghost use Rattle.fixed.specs.Results.{Means};
ghost use Rattle.spelling.specs.Lines.{names as names_of};
ghost use Rattle.fields.specs.Order.{columns_of, first_column};
ghost use Rattle.fields.specs.Reading.{pieces_of, PastField};

use crate::order::ColumnOrder;
use crate::reader::Reader;
use spelling::column::Column;
use spelling::fault::LineFault;

// The column of the next name.
fn next_column(reader: &mut Reader<'_>) -> Result<Column, LineFault>
    ensures column { result ≡ first_column (pieces_of 32 reader.old) }
    ensures past { PastField reader.old reader.new }
{
    let name = reader.piece(b' ').ok_or(LineFault::JobNames)?;
    Column::try_from(name)
}

// The names of the columns, in the order in which the fields of each job stand.
#[tactic(auto, using(crate::proofs::Gathered::names_next))]
pub fn names(line: &[u8]) -> Result<ColumnOrder, LineFault>
    ensures { Means columns_of (names_of line.now) result }
{
    let mut reader = Reader::new(line);
    let columns = [
        next_column(&mut reader)?,
        next_column(&mut reader)?,
        next_column(&mut reader)?,
        next_column(&mut reader)?,
    ];
    if reader.piece(b' ').is_some() {
        return Err(LineFault::JobNames);
    }
    ColumnOrder::new(columns).ok_or(LineFault::JobNames)
}
