ghost use Rattle.std.specs.Prelude.{◌≡◌, true, false, MatchOption};
ghost use Rattle.job.specs.Records.{job_of, draft_of};
ghost use Rattle.procedure.specs.Proposals.{proposal_of, spoils};
ghost use Rattle.procedure.specs.Verdicts.{Judged};

use crate::proposal::Proposal;
use board::points::all_on_board;
use fixed::list::FixedList;
use job::draft::JobDraft;
use job::record::JobRecord;

// A follow-up as a job record on a board of that size, unless it spoils its proposal.
fn follow_up(draft: &JobDraft, size: usize) -> Option<JobRecord>
    ensures { MatchOption result (spoils size (draft_of draft.now) ≡ true) (λ j. (spoils size (draft_of draft.now) ≡ false) × (job_of j ≡ draft_of draft.now)) }
{
    JobRecord::try_from(draft)
        .ok()
        .filter(|job| all_on_board(job.points(), size))
}

impl Proposal {
    // The follow-ups as job records in their order, if the proposal is good on a board of that size, and nothing if it is spoilt.
    pub fn judged(&self, size: usize) -> Option<FixedList<JobRecord, 4>>
        ensures { Judged size (proposal_of self.now) result }
    {
        // before any is made a record, however many there are
        if self.follow_ups.len() > 4 {
            return None;
        }
        let mut jobs = FixedList::new(JobRecord::blank());
        for draft in &self.follow_ups {
            let job = follow_up(draft, size)?;
            // there is room for 4
            let _ = jobs.push(job);
        }
        Some(jobs)
    }
}
