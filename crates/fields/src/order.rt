ghost use Rattle.std.specs.Prelude.{◌≡◌, true};
ghost use Rattle.spelling.specs.Lines.{order_of_four};

use spelling::column::Column;

mod calls;

// The order in which the fields of each job stand: all four columns, each once.
#[derive(Clone, Copy)]
pub struct ColumnOrder {
    columns: [Column; 4],
    ghost four: { order_of_four columns ≡ true },
}
