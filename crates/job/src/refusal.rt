ghost use Rattle.std.specs.Prelude.{◌≡◌, Some};
ghost use Rattle.job.specs.Refusals.{reason_of, line_refusal, preview_refusal, refusal_values};

use crate::fault::{FieldFault, JobFault, PreviewFault};
use std::fmt;

// A refusal by its numbers, as an installer meets it.
#[derive(Clone, Copy, PartialEq, Eq, Debug)]
pub struct Refusal {
    pub number: u8,
    pub line: usize,
    pub field: usize,
    pub reason: u8,
}

impl Refusal {
    // A refusal without field and reason.
    pub fn at_line(number: u8, line: usize) -> Refusal
        ensures { result ≡ line_refusal number line }
    {
        Refusal {
            number,
            line,
            field: 0,
            reason: 0,
        }
    }
}

// Written out, since its text is the format of a listing, and a derived one would not be pinned.
impl fmt::Display for Refusal {
    ghost output = { λ r. Some (refusal_values r) };

    fn fmt<W: fmt::Write>(&self, f: &mut fmt::Formatter<W>) -> fmt::Result {
        write!(
            f,
            "{} {} {} {}",
            self.number, self.line, self.field, self.reason
        )
    }
}

impl FieldFault {
    // The reason by its number, as a listing prints it: a rule of the format, given here alone.
    pub fn reason(self) -> u8
        ensures { result ≡ reason_of self }
    {
        match self {
            FieldFault::NoNumber => 1,
            FieldFault::AboveRange(_) => 2,
            FieldFault::UnknownLetter => 3,
            FieldFault::TooManyPoints => 4,
        }
    }
}

impl From<PreviewFault> for Refusal {
    ghost from_gives = { λ fault r. r ≡ preview_refusal fault };

    fn from(fault: PreviewFault) -> Refusal {
        match fault {
            PreviewFault::WrongLength => Refusal::at_line(13, 0),
            PreviewFault::Candidate(JobFault::Field(fault)) => Refusal {
                number: 4,
                line: 0,
                field: 0,
                reason: fault.reason(),
            },
            PreviewFault::Candidate(JobFault::PointTwice) => Refusal::at_line(5, 0),
        }
    }
}
