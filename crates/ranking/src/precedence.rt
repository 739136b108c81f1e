ghost use Rattle.std.specs.Prelude.{◌≡◌, ℕ};
ghost use Rattle.job.specs.Plain.{Job};
ghost use Rattle.job.specs.Records.{job_of};
ghost use Rattle.ranking.specs.Keys.{sheet_key, urgency_key};
ghost use Rattle.ranking.specs.Standings.{standing_of};

use crate::order::Order;
use crate::standing::Standing;
use job::record::JobRecord;

// A key for each job, from its record and its number alone, in an order of keys.
// A record lies in its table and its number is its place there: a struct of both would be made only for a call.
pub trait Precedence {
    type Key: Order + Copy;

    ghost keyed: { Self → Job → ℕ → Self.Key };

    fn key(&self, job: &JobRecord, number: u8) -> Self::Key
        ensures { result ≡ keyed self.now (job_of job.now) number };
}

// Jobs in the order of their numbers.
#[derive(Clone, Copy)]
pub struct SheetOrder;

impl Precedence for SheetOrder {
    type Key = u8;

    ghost keyed = { λ _. sheet_key };

    fn key(&self, _job: &JobRecord, number: u8) -> u8 {
        number
    }
}

// Jobs by urgency, and by their count of points, at most 8, where the urgencies are equal.
#[derive(Clone, Copy)]
pub struct UrgencyOrder;

impl Precedence for UrgencyOrder {
    type Key = (u8, u8);

    ghost keyed = { λ _. urgency_key };

    fn key(&self, job: &JobRecord, _number: u8) -> (u8, u8) {
        (job.urgency(), u8::try_from(job.points().len()).unwrap())
    }
}

// The standing of a job under a precedence.
pub fn standing<P: Precedence>(precedence: &P, job: &JobRecord, number: u8) -> Standing<P::Key>
    ensures { result ≡ standing_of (P.keyed precedence.now) (job_of job.now) number }
{
    Standing {
        key: precedence.key(job, number),
        number,
    }
}
