ghost use Rattle.std.specs.Prelude.{◌≡◌, IfOk};
ghost use Rattle.procedure.specs.Proposals.{proposal_of, unchanged};

use job::draft::JobDraft;
use std::alloc::{AllocError, Global};

// What a procedure hands in for a job: a new word for each of its points, and jobs that are to follow.
#[derive(Drop)]
pub struct Proposal {
    pub words: Vec<u32>,
    pub follow_ups: Vec<JobDraft>,
}

impl Proposal {
    // The words as they are, and no follow-ups.
    pub fn unchanged(words: &[u32], heap: Global) -> Result<Proposal, AllocError>
        ensures { IfOk result (λ p. proposal_of p ≡ unchanged words.now) }
    {
        Ok(Proposal {
            words: Vec::from_slice(heap, words)?,
            follow_ups: Vec::new(heap),
        })
    }
}
