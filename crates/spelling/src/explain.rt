// Faults of a field in plain words, for people: what is wrong, and what a sheet allows.
use job::fault::FieldFault;
use std::fmt;

// A field's fault, as it is said of a sheet: of the letters that a record may have, a sheet names two. Written out, since
// a derive would stand at the enum, which does not know of sheets.
#[derive(Clone, Copy)]
pub(crate) struct InSheet(pub(crate) FieldFault);

impl fmt::Display for InSheet {
    fn fmt<W: fmt::Write>(&self, f: &mut fmt::Formatter<W>) -> fmt::Result {
        match self.0 {
            FieldFault::NoNumber => write!(
                f,
                "is no number: digits are allowed, without leading zeros"
            ),
            FieldFault::AboveRange(most) => write!(
                f,
                "is above its range: at most {most} is allowed"
            ),
            FieldFault::UnknownLetter => write!(f, "is no known letter: T and S are allowed"),
            FieldFault::TooManyPoints => write!(f, "has too many points: at most 8 are allowed"),
        }
    }
}
