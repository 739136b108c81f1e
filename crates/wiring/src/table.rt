ghost use Rattle.std.specs.Prelude.{◌≡◌, true, nat_le};
ghost use Rattle.fixed.specs.Fixed.{list_of};
ghost use Rattle.std.specs.List.{list_all};
ghost use Rattle.wiring.specs.Wires.{leads_on, tally};

use crate::wire::Wire;
use fixed::list::FixedList;

mod calls;

// A wire table: at most 256 wires, none from a point to itself, at most four from one point.
// Over the one list as a job table is, and a type of its own, since its wires have a law together: ghost fields and no
// model, so that a proof knows it of every table.
#[derive(Drop)]
pub struct WireTable {
    wires: FixedList<Wire, 256>,
    // how many wires lead from each point: where an index serves, no wires are searched
    leaving: [u8; 256],
    ghost counted: { tally (list_of wires) ≡ leaving },
    ghost onward: { list_all leads_on (list_of wires) ≡ true },
    ghost four: { list_all (λ n. nat_le n 4) leaving ≡ true },
}
