ghost use Rattle.std.specs.Prelude.{◌≡◌, ◌≤◌, length, IfOk, Ok, nat_le, true};
ghost use Rattle.std.specs.List.{list_all};
ghost use Rattle.fixed.specs.Fixed.{list_of};
ghost use Rattle.job.specs.Records.{job_of, draft_of};
ghost use Rattle.job.specs.Admitted.{letter_within, points_within, admitted, assembled, no_record};
ghost use Rattle.fixed.specs.Results.{Means, given};

use crate::draft::JobDraft;
use crate::fault::{FieldFault, JobFault};
use crate::record::JobRecord;
use fixed::distinct::all_different;
use fixed::list::FixedList;
use std::alloc::{AllocError, Global};

fn letter_within(letter: char) -> Result<char, FieldFault>
    ensures { result ≡ letter_within letter }
{
    match letter {
        'A'..='Z' => Ok(letter),
        _ => Err(FieldFault::UnknownLetter),
    }
}

// A number that is at most the top.
fn at_most(number: u32, top: u8) -> Result<u8, FieldFault>
    ensures { result ≡ given (nat_le number top) (FieldFault.AboveRange top) (Ok number) }
{
    match u8::try_from(number) {
        Ok(number) if number <= top => Ok(number),
        _ => Err(FieldFault::AboveRange(u32::from(top))),
    }
}

// At most 8 points, each at most 255.
fn points_within(points: &[u32]) -> Result<FixedList<u8, 8>, FieldFault>
    ensures { Means list_of (points_within points.now) result }
{
    if points.len() > 8 {
        return Err(FieldFault::TooManyPoints);
    }
    let mut list = FixedList::new(0);
    for point in points {
        // there is room for 8
        let _ = list.push(at_most(*point, u8::MAX)?);
    }
    Ok(list)
}

// Points as a draft has them; each is at most 255.
fn widened(points: &[u8], heap: Global) -> Result<Vec<u32>, AllocError>
    ensures same { IfOk result (λ v. v.items ≡ points.now) }
    ensures small { list_all (λ p. nat_le p 255) points.now ≡ true }
{
    points.iter().map(|point| u32::from(*point)).collect(heap)
}

// A draft as a record, refused by its first fault: letter, urgency, number of points, points from the left, a point twice.
impl TryFrom<&JobDraft> for JobRecord {
    type Error = JobFault;

    ghost try_from_gives = { λ draft r. Means job_of (admitted (draft_of draft.now)) r };

    fn try_from(draft: &JobDraft) -> Result<JobRecord, JobFault> {
        let letter = letter_within(draft.letter)?;
        let urgency = at_most(draft.urgency, 9)?;
        let points = points_within(draft.points.as_slice())?;
        JobRecord::new(letter, draft.argument, urgency, points)
    }
}

impl JobRecord {
    // The record of letter T with nothing in it.
    pub fn blank() -> JobRecord
        ensures { job_of result ≡ no_record }
    {
        JobRecord {
            letter: 'T',
            argument: 0,
            urgency: 0,
            points: FixedList::new(0),
        }
    }

    // A record of these parts, if the letter, the urgency and the points are such as a record has.
    #[tactic(auto, using(crate::proofs::Admitting::passes_same))]
    pub fn new(
        letter: char,
        argument: u32,
        urgency: u8,
        points: FixedList<u8, 8>,
    ) -> Result<JobRecord, JobFault>
        ensures { Means job_of (assembled (record { letter = letter; argument = argument; urgency = urgency; points = list_of points })) result }
    {
        let letter = letter_within(letter)?;
        let urgency = at_most(u32::from(urgency), 9)?;
        if !all_different(points.as_slice()) {
            return Err(JobFault::PointTwice);
        }
        Ok(JobRecord {
            letter,
            argument,
            urgency,
            points,
        })
    }

    pub fn letter(&self) -> char
        ensures { result ≡ (job_of self.now).letter }
    {
        self.letter
    }

    pub fn argument(&self) -> u32
        ensures { result ≡ (job_of self.now).argument }
    {
        self.argument
    }

    pub fn urgency(&self) -> u8
        ensures { result ≡ (job_of self.now).urgency }
    {
        self.urgency
    }

    pub fn points(&self) -> &[u8]
        ensures value { result.now ≡ (job_of self.now).points }
        ensures few { length result.now ≤ 8 }
    {
        self.points.as_slice()
    }

    // The record as a draft that says the same, and that is admitted as every record is. It wants memory, so it is no `From`.
    pub fn draft(&self, heap: Global) -> Result<JobDraft, AllocError>
        ensures same { IfOk result (λ d. draft_of d ≡ job_of self.now) }
        ensures admitted { IfOk result (λ d. admitted (draft_of d) ≡ Ok (draft_of d)) }
    {
        Ok(JobDraft {
            letter: self.letter,
            argument: self.argument,
            urgency: u32::from(self.urgency),
            points: widened(self.points(), heap)?,
        })
    }
}
