ghost use Rattle.std.specs.Prelude.{◌≡◌, IfOk};
ghost use Rattle.job.specs.Records.{job_of};
ghost use Rattle.procedure.specs.Proposals.{Rule, AsMany, proposal_of};

use crate::proposal::Proposal;
use job::record::JobRecord;
use std::alloc::{AllocError, Global};

// A procedure means one rule, which asking never alters, and which gives as many words as it takes.
pub trait Procedure {
    ghost rule: { Self → Rule };

    // A proof, and not a law below `ask`: a clause can name it, and it is known of a `&dyn Procedure` too.
    ghost balanced: { (s : Self) → AsMany (rule s) };

    // What the rule gives for the job and the words at its points; an error is want of memory.
    fn ask(&self, job: &JobRecord, words: &[u32], heap: Global) -> Result<Proposal, AllocError>
        ensures { IfOk result (λ p. proposal_of p ≡ rule self.now (job_of job.now) words.now) };
}
