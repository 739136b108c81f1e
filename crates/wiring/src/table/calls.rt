ghost use Rattle.std.specs.Prelude.{◌≡◌, ◌≤◌, true, [], length, nat_le};
ghost use Rattle.std.specs.List.{list_all};
ghost use Rattle.wiring.specs.Wires.{leads_on, tally};
ghost use Rattle.wiring.specs.Wiring.{wires_of, Strung};

use crate::fault::WireFault;
use crate::table::WireTable;
use crate::wire::Wire;
use fixed::list::FixedList;

impl WireTable {
    pub fn new() -> WireTable
        ensures { wires_of result ≡ [] }
    {
        WireTable {
            wires: FixedList::new(Wire::default()),
            leaving: [0; 256],
        }
    }

    pub fn len(&self) -> usize
        ensures value { result ≡ length (wires_of self.now) }
        ensures bound { result ≤ 256 }
    {
        self.wires.len()
    }

    pub fn is_full(&self) -> bool
        ensures { result ≡ nat_le 256 (length (wires_of self.now)) }
    {
        self.wires.is_full()
    }

    pub fn wires(&self) -> &[Wire]
        ensures value { result.now ≡ wires_of self.now }
        ensures bound { length result.now ≤ 256 }
        ensures onward { list_all leads_on result.now ≡ true }
        ensures four { list_all (λ n. nat_le n 4) (tally result.now) ≡ true }
    {
        self.wires.as_slice()
    }

    pub fn clear(&mut self)
        ensures { wires_of self.new ≡ [] }
    {
        self.wires.clear();
        self.leaving = [0; 256];
    }

    // One wire more, behind the others; a refused one leaves the table as it is.
    pub fn push(&mut self, wire: Wire) -> Result<(), WireFault>
        ensures { Strung (wires_of self.old) wire result (wires_of self.new) }
    {
        if self.wires.is_full() {
            return Err(WireFault::TableFull);
        }
        if wire.from == wire.to {
            return Err(WireFault::ToItself);
        }
        let from = usize::from(wire.from);
        if self.leaving[from] >= 4 {
            return Err(WireFault::FifthFromPoint);
        }
        let _ = self.wires.push(wire);
        self.leaving[from] += 1;
        Ok(())
    }
}
