ghost use Rattle.std.specs.Prelude.{◌≡◌, length};
ghost use Rattle.job.specs.Admitted.{no_record};
ghost use Rattle.fixed.specs.Results.{Means};
ghost use Rattle.spelling.specs.Lines.{fields, job_line};
ghost use Rattle.spelling.specs.Texts.{all_of, cut};
ghost use Rattle.fields.specs.Order.{columns_of};
ghost use Rattle.sheet.specs.Tables.{Takes};
ghost use Rattle.sheet.specs.Values.{values_of};
ghost use Rattle.job.specs.Records.{jobs_of};

use crate::values::Values;
use fields::order::ColumnOrder;
use fields::place::at;
use fields::reader::Reader;
use fields::shape::expect_fields;
use job::table::JobTable;
use spelling::fault::LineFault;

// The four fields of a job line, which stand in the order of the columns. The caller has counted them;
// a type that says so would be made for this one call.
fn job_fields(order: &ColumnOrder, line: &[u8]) -> Result<Values, LineFault>
    requires { length (all_of (cut 32 line.now)) ≡ 4 }
    ensures { Means values_of (fields (columns_of order.now) (all_of (cut 32 line.now)) 1 no_record) result }
{
    let mut reader = Reader::new(line);
    let mut values = Values::none();
    // the place is wanted: a fault names its field
    for (i, column) in order.columns().iter().enumerate() {
        at(i + 1, values.put(*column, &mut reader))?;
    }
    Ok(values)
}

// Takes the job of a line into the table.
pub(crate) fn take_job(
    order: &ColumnOrder,
    line: &[u8],
    jobs: &mut JobTable,
) -> Result<(), LineFault>
    ensures { Takes (job_line (columns_of order.now) (jobs_of jobs.old) line.now) (jobs_of jobs.old) result (jobs_of jobs.new) }
{
    if jobs.is_full() {
        return Err(LineFault::TooManyJobs);
    }
    expect_fields(line, 4)?;
    let values = job_fields(order, line)?;
    let record = values.record()?;
    // the table was not full
    let _ = jobs.push(record);
    Ok(())
}
