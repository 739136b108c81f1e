ghost use Rattle.std.specs.Prelude.{◌≡◌, Ok};
ghost use Rattle.job.specs.Admitted.{no_record};
ghost use Rattle.fixed.specs.Lists.{distinct};
ghost use Rattle.job.specs.Records.{job_of};
ghost use Rattle.fixed.specs.Results.{given, Means};
ghost use Rattle.spelling.specs.declared.fault.LineFault.TheVariants.{PointTwice};
ghost use Rattle.fields.specs.Reading.{pieces_of, head_of, tail_of};
ghost use Rattle.sheet.specs.Values.{values_of, Puts};

use crate::values::Values;
use fields::field::Field;
use fields::points::points;
use fields::reader::Reader;
use fixed::list::FixedList;
use job::fault::{FieldFault, JobFault};
use job::record::JobRecord;
use spelling::column::Column;
use spelling::fault::LineFault;

impl Values {
    pub(crate) fn none() -> Values
        ensures { values_of result ≡ no_record }
    {
        Values {
            letter: 'T',
            argument: 0,
            urgency: 0,
            points: FixedList::new(0),
        }
    }

    // Takes in the next field of the line, which is of this column.
    pub(crate) fn put(&mut self, column: Column, reader: &mut Reader<'_>) -> Result<(), FieldFault>
        ensures puts { Puts column (head_of (pieces_of 32 reader.old)) (values_of self.old) result (values_of self.new) }
        ensures left { pieces_of 32 reader.new ≡ tail_of (pieces_of 32 reader.old) }
    {
        match (column, reader.field(column)?) {
            (_, Field::Letter(letter)) => self.letter = letter,
            // at most 9, so there is a value
            (Column::Urg, Field::Number(n)) => self.urgency = u8::try_from(n).unwrap(),
            (_, Field::Number(n)) => self.argument = n,
            (_, Field::List(part, _)) => self.points = points(part)?,
        }
        Ok(())
    }

    // The job that the fields say, unless a point stands twice.
    pub(crate) fn record(&self) -> Result<JobRecord, LineFault>
        ensures { Means job_of (given (distinct (values_of self.now).points) PointTwice (Ok (values_of self.now))) result }
    {
        match JobRecord::new(self.letter, self.argument, self.urgency, self.points) {
            Ok(record) => Ok(record),
            Err(JobFault::PointTwice) => Err(LineFault::PointTwice),
            // each field was read within its limits
            Err(JobFault::Field(_)) => unreachable!(),
        }
    }
}
