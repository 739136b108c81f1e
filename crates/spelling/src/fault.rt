ghost use Rattle.std.specs.Prelude.{◌≡◌};
ghost use Rattle.spelling.specs.Faults.{wire_fault};
ghost use Rattle.spelling.specs.declared.fault.LineFault.TheVariants.{AtField};
ghost use Rattle.spelling.specs.declared.fault.SheetFault.TheVariants.{AtLine};

use crate::explain::InSheet;
use job::fault::FieldFault;
use thiserror::Error;
use wiring::fault::WireFault;

// What is wrong with one line; the words go on from the number of the line.
#[derive(Clone, Copy, PartialEq, Eq, Debug, Error)]
pub enum LineFault {
    // the first line is not the four names of the columns
    #[error(": the names proc, arg, urg and points, each once, are wanted here, with a line end behind them")]
    JobNames,
    // the line behind the empty line is not the three names of the wires' part
    #[error(": the names from to delay are wanted here, with a line end behind them")]
    WireNames,
    // a line of values without the byte that ends it
    #[error(" has no line end: every line ends with one")]
    Unended,
    // not this number of fields, or an empty one
    #[error(" has not {0} fields: {0} are wanted, none empty, with one space between two")]
    FieldCount(usize),
    // the field at this place, counted from 1
    #[error(", field {0} {said}", said = InSheet(*.1))]
    AtField(usize, FieldFault),
    #[error(" has a point twice: the points of a job are all different")]
    PointTwice,
    #[error(" is one job too many: at most 64 are allowed")]
    TooManyJobs,
    #[error(" is one wire too many: at most 256 are allowed")]
    TooManyWires,
    #[error(" is a wire from a point to itself: a wire leads to another point")]
    WireToItself,
    #[error(" is a fifth wire from one point: at most 4 are allowed")]
    FifthWire,
}

// What is wrong with a sheet.
#[derive(Clone, Copy, PartialEq, Eq, Debug, Error)]
pub enum SheetFault {
    #[error("The sheet is empty: a line of names is wanted.")]
    NoBytes,
    // the line at this place, counted from 1
    #[error("Line {0}{1}.")]
    AtLine(usize, LineFault),
}

// Written out, as is that of a sheet's faults: a derived `From` does not say which fault it gives.
impl From<(usize, FieldFault)> for LineFault {
    ghost from_gives = { λ e r. r ≡ AtField e.0 e.1 };

    fn from(e: (usize, FieldFault)) -> LineFault {
        LineFault::AtField(e.0, e.1)
    }
}

// Written out, since each case becomes another.
impl From<WireFault> for LineFault {
    ghost from_gives = { λ e r. r ≡ wire_fault e };

    fn from(e: WireFault) -> LineFault {
        match e {
            WireFault::TableFull => LineFault::TooManyWires,
            WireFault::ToItself => LineFault::WireToItself,
            WireFault::FifthFromPoint => LineFault::FifthWire,
        }
    }
}

impl From<(usize, LineFault)> for SheetFault {
    ghost from_gives = { λ e r. r ≡ AtLine e.0 e.1 };

    fn from(e: (usize, LineFault)) -> SheetFault {
        SheetFault::AtLine(e.0, e.1)
    }
}
