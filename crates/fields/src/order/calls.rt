ghost use Rattle.std.specs.Prelude.{◌≡◌, length, true, false, MatchOption};
ghost use Rattle.spelling.specs.Lines.{order_of_four};
ghost use Rattle.fields.specs.Order.{columns_of};

use crate::order::ColumnOrder;
use fixed::distinct::all_different;
use spelling::column::Column;

impl ColumnOrder {
    // These columns as an order, unless one stands twice.
    #[tactic(auto, using(crate::proofs::Gathered::order_differs))]
    pub fn new(columns: [Column; 4]) -> Option<ColumnOrder>
        ensures { MatchOption result (order_of_four columns ≡ false) (λ order. columns_of order ≡ columns) }
    {
        if all_different(&columns) {
            Some(ColumnOrder { columns })
        } else {
            None
        }
    }

    // The columns from the left; there are four.
    pub fn columns(&self) -> &[Column]
        ensures value { result.now ≡ columns_of self.now }
        ensures once { order_of_four result.now ≡ true }
        ensures four { length result.now ≡ 4 }
    {
        &self.columns
    }
}
