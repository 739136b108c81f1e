ghost use Rattle.std.specs.Prelude.{◌≡◌, ◌≤◌, length};
ghost use Rattle.ranking.specs.Orders.{count_below};

use crate::order::Order;

// How many elements are below a value. A loop and no chain, which takes twice the time for pairs and standings.
pub fn count_below<E: Order>(all: &[E], one: &E) -> usize
    ensures value { result ≡ count_below E.below all.now one.now }
    ensures bound { result ≤ length all.now }
{
    let mut count: usize = 0;
    for x in all {
        if x.is_below(one) {
            count += 1;
        }
    }
    count
}
