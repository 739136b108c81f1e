ghost use Rattle.std.specs.Prelude.{◌≡◌};
ghost use Rattle.spelling.specs.Lines.{column};

use crate::fault::LineFault;

// What stands in a column of the job lines.
#[derive(Clone, Copy, PartialEq, Eq, Debug)]
pub enum Column {
    Proc,
    Arg,
    Urg,
    Points,
}

// The column of a name.
impl TryFrom<&[u8]> for Column {
    type Error = LineFault;

    ghost try_from_gives = { λ name r. r ≡ column name.now };

    #[tactic(auto, using(crate::proofs::Named::column_stands, std::proofs::lemmas::Bool::Decides::nat_tests))]
    fn try_from(name: &[u8]) -> Result<Column, LineFault> {
        match name {
            b"proc" => Ok(Column::Proc),
            b"arg" => Ok(Column::Arg),
            b"urg" => Ok(Column::Urg),
            b"points" => Ok(Column::Points),
            _ => Err(LineFault::JobNames),
        }
    }
}
