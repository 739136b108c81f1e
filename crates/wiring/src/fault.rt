// Why a wire is not taken into a table.
#[derive(Clone, Copy, PartialEq, Eq, Debug)]
pub enum WireFault {
    TableFull,
    ToItself,
    FifthFromPoint,
}
