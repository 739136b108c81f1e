ghost use Rattle.std.specs.Prelude.{◌≡◌};
ghost use Rattle.spelling.specs.Faults.{sheet_refusal};

use crate::fault::{LineFault, SheetFault};
use job::refusal::Refusal;

// The numbers by which a refused sheet is reported.
impl From<SheetFault> for Refusal {
    ghost from_gives = { λ e r. r ≡ sheet_refusal e };

    fn from(fault: SheetFault) -> Refusal {
        let SheetFault::AtLine(line, fault) = fault else {
            return Refusal::at_line(1, 0);
        };
        match fault {
            LineFault::JobNames | LineFault::WireNames => Refusal::at_line(2, line),
            LineFault::Unended | LineFault::FieldCount(_) => Refusal::at_line(3, line),
            LineFault::AtField(field, fault) => Refusal {
                number: 4,
                line,
                field,
                reason: fault.reason(),
            },
            LineFault::PointTwice => Refusal::at_line(5, line),
            LineFault::TooManyJobs | LineFault::TooManyWires => Refusal::at_line(6, line),
            LineFault::WireToItself | LineFault::FifthWire => Refusal::at_line(7, line),
        }
    }
}
