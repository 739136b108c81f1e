ghost use Rattle.std.specs.Prelude.{◌≡◌, ℕ, ◌||◌, map};
ghost use Rattle.std.specs.List.{list_any};
ghost use Rattle.fixed.specs.Lists.{has};
ghost use Rattle.job.specs.Records.{job_of};
ghost use Rattle.job.specs.Preview.{blank_marks, marked, HighestMarked};

use crate::record::JobRecord;

// 256 lent marks, one for each point, which are blank when the guard begins and blank again once it ends.
pub(crate) struct MarkGuard<'a> {
    marks: &'a mut [u8; 256],
}

impl Drop for MarkGuard<'_> {
    fn drop(self)
        ensures { self.exit.0.now ≡ blank_marks }
    {
        self.marks.fill(0);
        let MarkGuard { marks: _ } = self;
    }
}

impl<'a> MarkGuard<'a> {
    pub(crate) fn new(marks: &'a mut [u8; 256]) -> MarkGuard<'a>
        ensures lent { result.marks.ghost_name ≡ marks.entry.ghost_name }
        ensures blank { result.marks.now ≡ blank_marks }
    {
        marks.fill(0);
        MarkGuard { marks }
    }

    // Marks these points as well.
    #[tactic(auto, using(crate::proofs::Highest::marked_more))]
    pub(crate) fn mark(&mut self, points: &[u8])
        ensures lent { self.new.marks.ghost_name ≡ self.old.marks.ghost_name }
        ensures marked { (p : ℕ) → marked self.new.marks.now p ≡ (marked self.old.marks.now p || has points.now p) }
    {
        let marks = &mut *self.marks;
        for point in points {
            marks[usize::from(*point)] = 1;
        }
    }

    // Whether one of the points is marked.
    fn any_marked(&self, points: &[u8]) -> bool
        ensures { result ≡ list_any (marked self.now.marks.now) points.now }
    {
        points
            .iter()
            .any(|point| self.marks[usize::from(*point)] != 0)
    }

    // The highest number of a job that has a marked point.
    pub(crate) fn highest_marked(&self, jobs: &[JobRecord]) -> Option<usize>
        ensures { HighestMarked self.now.marks.now (map job_of jobs.now) result }
    {
        jobs.iter()
            .rposition(|job| self.any_marked(job.points()))
            .map(|place| place + 1)
    }
}
