ghost use Rattle.std.specs.Prelude.{◌≤◌, length};
ghost use Rattle.fixed.specs.Fixed.{list_of};
ghost use Rattle.fixed.specs.Results.{Means};
ghost use Rattle.spelling.specs.Fields.{number as number_of, points as points_of};
ghost use Rattle.spelling.specs.Texts.{all_of, cut, each};

use crate::number::byte;
use crate::shape::at_most;
use fixed::list::FixedList;
use job::fault::FieldFault;

// The numbers between commas, of which there are at most 8. The caller has counted them; a type that says so would be
// made for this one call.
fn listed(text: &[u8]) -> Result<FixedList<u8, 8>, FieldFault>
    requires { length (all_of (cut 44 text.now)) ≤ 8 }
    ensures { Means list_of (each (number_of 255) (all_of (cut 44 text.now))) result }
{
    let mut list = FixedList::new(0);
    for piece in text.split(|b| *b == b',') {
        // there is room for each
        let _ = list.push(byte(piece)?);
    }
    Ok(list)
}

// The points of a job: `-` for none, or up to 8 numbers with commas between them.
#[tactic(auto, using(crate::proofs::Steps::same_eq))]
pub fn points(text: &[u8]) -> Result<FixedList<u8, 8>, FieldFault>
    ensures { Means list_of (points_of text.now) result }
{
    // `==`, since a proof does not close behind the pattern `[b'-']`
    if text == b"-".as_slice() {
        return Ok(FixedList::new(0));
    }
    if !at_most(text, b',', 8) {
        return Err(FieldFault::TooManyPoints);
    }
    listed(text)
}
