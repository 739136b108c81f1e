ghost use Rattle.std.specs.Prelude.{◌≡◌, IfOk, Some, string_bytes};
ghost use Rattle.fixed.specs.Fixed.{list_of};
ghost use Rattle.listing.specs.Texts.{row_text, report_text, refusal_text};

use crate::report::Report;
use job::refusal::Refusal;
use std::alloc::{AllocError, Global};
use std::fmt;

// A job's number, and the job that it clashes with.
#[derive(Clone, Copy)]
struct Row {
    number: usize,
    clash: Option<usize>,
}

// Both written out, since their text is the format, and a derived one would not be pinned.
impl fmt::Display for Row {
    ghost output = { λ r. Some (row_text r.number r.clash) };

    fn fmt<W: fmt::Write>(&self, f: &mut fmt::Formatter<W>) -> fmt::Result {
        let number = self.number;
        match self.clash {
            Some(other) => writeln!(f, "{number} {other}"),
            None => writeln!(f, "{number} -"),
        }
    }
}

impl fmt::Display for Report {
    ghost output = { λ r. Some (report_text (list_of r.clashes)) };

    fn fmt<W: fmt::Write>(&self, f: &mut fmt::Formatter<W>) -> fmt::Result {
        f.write_str("job clash\n")?;
        // the place is wanted: it gives the job's number
        for (i, clash) in self.clashes.as_slice().iter().enumerate() {
            let row = Row {
                number: i + 1,
                clash: *clash,
            };
            write!(f, "{row}")?;
        }
        Ok(())
    }
}

// The listing of an accepted sheet.
pub fn report_text(report: &Report, heap: Global) -> Result<String, AllocError>
    ensures { IfOk result (λ s. string_bytes s ≡ report_text (list_of report.now.clashes)) }
{
    format!(in heap; "{report}")
}

// The listing of a refused sheet.
pub fn refusal_text(refusal: Refusal, heap: Global) -> Result<String, AllocError>
    ensures { IfOk result (λ s. string_bytes s ≡ refusal_text refusal) }
{
    format!(in heap; "number line field reason\n{refusal}\n")
}
