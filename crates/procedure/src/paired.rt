ghost use Rattle.procedure.specs.Counts.{paired_as_many};
ghost use Rattle.procedure.specs.Paired.{paired_rule};

use crate::procedure::Procedure;
use crate::proposal::Proposal;
use job::record::JobRecord;
use std::alloc::{AllocError, Global};

// Two procedures: letters before the cut go to the first, others to the second. Either may be a pair again.
#[derive(Drop)]
pub struct Paired<P, Q> {
    pub first: P,
    pub second: Q,
    pub cut: char,
}

impl<P: Procedure, Q: Procedure> Procedure for Paired<P, Q> {
    ghost rule = { λ s. paired_rule s.cut (P.Procedure.rule s.first) (Q.Procedure.rule s.second) };

    ghost balanced = { λ s. paired_as_many s.cut (P.Procedure.rule s.first) (Q.Procedure.rule s.second) (P.Procedure.balanced s.first) (Q.Procedure.balanced s.second) };

    fn ask(&self, job: &JobRecord, words: &[u32], heap: Global) -> Result<Proposal, AllocError> {
        if job.letter() < self.cut {
            self.first.ask(job, words, heap)
        } else {
            self.second.ask(job, words, heap)
        }
    }
}
