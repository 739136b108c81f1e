ghost use Rattle.std.specs.Prelude.{◌≡◌, ◌≤◌, ⊤, true};
ghost use Rattle.fixed.specs.Lists.{distinct};
ghost use Rattle.fixed.specs.Fixed.{list_of};

use fixed::list::FixedList;
use std::alloc::AllocError;

mod calls;

// A job record: a letter A to Z, an argument, an urgency 0 to 9, and up to 8 points, all different, in the order given.
// Facts as ghost fields: a model that shows the plain job would forget the unused places, and so not be `Copy`.
pub struct JobRecord {
    letter: char,
    argument: u32,
    urgency: u8,
    points: FixedList<u8, 8>,
    ghost from_a: { 65 ≤ letter },
    ghost to_z: { letter ≤ 90 },
    ghost urgent: { urgency ≤ 9 },
    ghost once: { distinct (list_of points) ≡ true },
}

// By hand: so what a clone is stands here, and an edit that turns it is refused by this clause and not by one of its own.
impl Clone for JobRecord {
    ghost is_clone = { λ job copy. copy ≡ job };

    ghost is_infallible = { λ _. ⊤ };

    fn clone(&self) -> Result<JobRecord, AllocError> {
        Ok(*self)
    }
}

impl Copy for JobRecord {}
