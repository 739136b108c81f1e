ghost use Rattle.std.specs.Prelude.{◌≡◌, ◌+◌, true, false, [], ◌∷◌, map, IfOk, MatchOption, slice_index, slice_set};
ghost use Rattle.job.specs.Records.{job_of, draft_of};
ghost use Rattle.procedure.specs.Counts.{spread_as_many};
ghost use Rattle.procedure.specs.Spread.{reaches, along, sent_on, carried, writes, spread_rule};

use crate::procedure::Procedure;
use crate::proposal::Proposal;
use job::draft::JobDraft;
use job::record::JobRecord;
use std::alloc::{AllocError, Global};
use wiring::wire::Wire;

// Letter S, on two points: carries the word of the first to the second, and on along the wires from there.
#[derive(Clone, Copy)]
pub struct Spread<'a> {
    pub wires: &'a [Wire],
}

// The word that the second point gets, if it gets one.
fn reached(at_a: u32, at_b: u32, argument: u32) -> Option<u32>
    ensures { MatchOption result (reaches at_a at_b (at_a + argument) ≡ false) (λ v. (reaches at_a at_b (at_a + argument) ≡ true) × (v ≡ at_a + argument)) }
{
    let v = at_a.checked_add(argument)?;
    (at_a != 0 && (at_b == 0 || at_b > v)).then_some(v)
}

// The second point of a job of letter S and the words at both, where the second gets a new one.
fn written(job: &JobRecord, words: &[u32]) -> Option<(u8, u32, u32)>
    ensures { let j = job_of job.now in MatchOption result (writes j words.now ≡ false) (λ w. (writes j words.now ≡ true) × (w.0 ≡ slice_index j.points 1) × (w.1 ∷ w.2 ∷ [] ≡ slice_set words.now 1 (carried j words.now))) }
{
    let ('S', [_, b], [at_a, at_b]) = (job.letter(), job.points(), words) else {
        return None;
    };
    let v = reached(*at_a, *at_b, job.argument())?;
    Some((*b, *at_a, v))
}

// The follow-up along a wire from b.
fn along(b: u8, urgency: u8, wire: Wire, heap: Global) -> Result<JobDraft, AllocError>
    ensures { IfOk result (λ d. draft_of d ≡ along b urgency wire) }
{
    Ok(JobDraft {
        letter: 'S',
        argument: wire.delay,
        urgency: u32::from(urgency),
        points: vec![in heap; u32::from(b), u32::from(wire.to)]?,
    })
}

// A follow-up for each wire from b, in the order of the wires.
fn sent_on(b: u8, urgency: u8, wires: &[Wire], heap: Global) -> Result<Vec<JobDraft>, AllocError>
    ensures { IfOk result (λ v. map draft_of v.items ≡ sent_on b urgency wires.now) }
{
    wires
        .iter()
        .filter(|wire| wire.from == b)
        .map(|wire| along(b, urgency, *wire, heap))
        .try_collect(heap)
}

impl Procedure for Spread<'_> {
    ghost rule = { λ s. spread_rule s.wires.now };

    ghost balanced = { λ s. spread_as_many s.wires.now };

    fn ask(&self, job: &JobRecord, words: &[u32], heap: Global) -> Result<Proposal, AllocError> {
        let Some((b, at_a, at_b)) = written(job, words) else {
            return Proposal::unchanged(words, heap);
        };
        Ok(Proposal {
            words: vec![in heap; at_a, at_b]?,
            follow_ups: sent_on(b, job.urgency(), self.wires, heap)?,
        })
    }
}
