ghost use Rattle.std.specs.Prelude.{◌≤◌};

use fixed::list::FixedList;

mod calls;

// What the fields of a job line said so far. No record can hold it: a point may still stand twice.
#[derive(Drop)]
pub(crate) struct Values {
    letter: char,
    argument: u32,
    urgency: u8,
    points: FixedList<u8, 8>,
    ghost from_a: { 65 ≤ letter },
    ghost to_z: { letter ≤ 90 },
    ghost urgent: { urgency ≤ 9 },
}
