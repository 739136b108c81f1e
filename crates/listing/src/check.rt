ghost use Rattle.std.specs.Prelude.{IfOk};
ghost use Rattle.fixed.specs.Fixed.{list_of};
ghost use Rattle.job.specs.Records.{jobs_of};
ghost use Rattle.listing.specs.Reports.{ClashRows, Checked};

use crate::fault::CheckFault;
use crate::report::Report;
use fixed::list::FixedList;
use job::preview::preview;
use job::table::JobTable;
use sheet::read::read;
use std::alloc::{AllocError, Global};
use wiring::table::WireTable;

// The most bytes that a sheet may have.
pub const MOST_BYTES: usize = 16384;

// What a preview answers for each job against the jobs before it.
fn clashes(jobs: &JobTable, heap: Global) -> Result<FixedList<Option<usize>, 64>, AllocError>
    ensures { IfOk result (λ rows. ClashRows (jobs_of jobs.now) (list_of rows)) }
{
    let mut earlier = JobTable::new();
    let mut marks = [0u8; 256];
    let mut rows = FixedList::new(None);
    for job in jobs.records() {
        let draft = job.draft(heap)?;
        // a record is admitted, and there are 256 marks
        let Ok(clash) = preview(&earlier, &draft, &mut marks) else {
            unreachable!()
        };
        let _ = rows.push(clash);
        let _ = earlier.push(*job);
    }
    Ok(rows)
}

// Checks the bytes of a sheet.
pub fn check(sheet: &[u8], heap: Global) -> Result<Report, CheckFault>
    ensures { Checked sheet.now result }
{
    if sheet.len() > MOST_BYTES {
        return Err(CheckFault::TooLong);
    }
    let mut jobs = JobTable::new();
    let mut wires = WireTable::new();
    read(sheet, &mut jobs, &mut wires)?;
    let clashes = clashes(&jobs, heap)?;
    Ok(Report { clashes })
}
