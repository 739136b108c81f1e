ghost use Rattle.std.specs.Prelude.{◌≡◌};
ghost use Rattle.job.specs.Records.{jobs_of, draft_of};
ghost use Rattle.job.specs.Preview.{blank_marks, Answered, Previewed, Blanked};

use crate::draft::JobDraft;
use crate::fault::PreviewFault;
use crate::marks::MarkGuard;
use crate::record::JobRecord;
use crate::table::JobTable;

// The highest number of a job that clashes with the draft, found on 256 marks, which are blank afterwards.
fn highest_clash(
    table: &JobTable,
    draft: &JobDraft,
    marks: &mut [u8; 256],
) -> Result<Option<usize>, PreviewFault>
    ensures answer { Answered (jobs_of table.now) (draft_of draft.now) result }
    ensures blanked { marks.new ≡ blank_marks }
{
    let mut guard = MarkGuard::new(marks);
    let candidate = JobRecord::try_from(draft)?;
    guard.mark(candidate.points());
    Ok(guard.highest_marked(table.records()))
}

// The highest number of a job of the table that clashes with the draft. The 256 lent marks are blank afterwards, on every way out.
pub fn preview(
    table: &JobTable,
    draft: &JobDraft,
    marks: &mut [u8],
) -> Result<Option<usize>, PreviewFault>
    ensures answer { Previewed (jobs_of table.now) (draft_of draft.now) marks.old result }
    ensures blanked { Blanked marks.old marks.new }
{
    let Some(marks) = marks.as_mut_array() else {
        return Err(PreviewFault::WrongLength);
    };
    highest_clash(table, draft, marks)
}
