ghost use Rattle.ranking.specs.Standings.{standing_below, standing_same};
ghost use Rattle.std.proofs.Common.{rules};

use crate::order::Order;

// A job by its key, of whatever precedence is fitted, and its number.
// The order of the fields is that of standings: by key, and by number where the keys are the same.
#[derive(Clone, Copy, PartialEq, Eq, PartialOrd, Ord, Debug)]
pub struct Standing<K> {
    pub key: K,
    pub number: u8,
}

// By key, and by number where the keys are the same. A key has its `Order` and no `<`, so the derived order does not serve.
impl<K: Order> Order for Standing<K> {
    ghost below = { standing_below K.Order.below K.Order.same };

    ghost same = { standing_same K.Order.same };

    ghost one = { Prim.search rules };

    ghost carries = { Prim.search rules };

    ghost alike = { Prim.search rules };

    fn is_below(&self, other: &Standing<K>) -> bool {
        self.key.is_below(&other.key) || self.key.is_same(&other.key) && self.number < other.number
    }

    fn is_same(&self, other: &Standing<K>) -> bool {
        self.key.is_same(&other.key) && self.number == other.number
    }
}
