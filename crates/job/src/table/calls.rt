ghost use Rattle.std.specs.Prelude.{◌≡◌, ◌≤◌, [], map, length, nat_le};
ghost use Rattle.fixed.specs.Fixed.{Pushed};
ghost use Rattle.job.specs.Records.{job_of, jobs_of};

use crate::record::JobRecord;
use crate::table::JobTable;
use fixed::list::FixedList;

impl JobTable {
    pub fn new() -> JobTable
        ensures { jobs_of result ≡ [] }
    {
        JobTable {
            jobs: FixedList::new(JobRecord::blank()),
        }
    }

    pub fn len(&self) -> usize
        ensures value { result ≡ length (jobs_of self.now) }
        ensures bound { result ≤ 64 }
    {
        self.jobs.len()
    }

    pub fn is_full(&self) -> bool
        ensures { result ≡ nat_le 64 (length (jobs_of self.now)) }
    {
        self.jobs.is_full()
    }

    // The records; job number n is the one at n - 1.
    pub fn records(&self) -> &[JobRecord]
        ensures value { map job_of result.now ≡ jobs_of self.now }
        ensures bound { length result.now ≤ 64 }
    {
        self.jobs.as_slice()
    }

    pub fn clear(&mut self)
        ensures { jobs_of self.new ≡ [] }
    {
        self.jobs.clear();
    }

    // One job more, with the next number; a full table stays as it is, and the record comes back.
    pub fn push(&mut self, job: JobRecord) -> Result<(), JobRecord>
        ensures { Pushed 64 job_of (jobs_of self.old) job result (jobs_of self.new) }
    {
        self.jobs.push(job)
    }
}
