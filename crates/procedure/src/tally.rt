ghost use Rattle.std.specs.Prelude.{◌≡◌, IfOk};
ghost use Rattle.procedure.specs.Counts.{tally_as_many};
ghost use Rattle.procedure.specs.Tally.{tallied, tally_rule};

use crate::procedure::Procedure;
use crate::proposal::Proposal;
use job::record::JobRecord;
use std::alloc::{AllocError, Global};

// Letter T: adds the argument to each word, and hands in nothing.
#[derive(Clone, Copy)]
pub struct Tally;

// Each word with the argument added, stopping at the highest word.
fn tallied(words: &[u32], argument: u32, heap: Global) -> Result<Vec<u32>, AllocError>
    ensures { IfOk result (λ v. v.items ≡ tallied argument words.now) }
{
    words
        .iter()
        .map(|word| word.saturating_add(argument))
        .collect(heap)
}

impl Procedure for Tally {
    ghost rule = { λ _. tally_rule };

    ghost balanced = { λ _. tally_as_many };

    fn ask(&self, job: &JobRecord, words: &[u32], heap: Global) -> Result<Proposal, AllocError> {
        if job.letter() != 'T' {
            return Proposal::unchanged(words, heap);
        }
        Ok(Proposal {
            words: tallied(words, job.argument(), heap)?,
            follow_ups: Vec::new(heap),
        })
    }
}
