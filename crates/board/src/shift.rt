ghost use Rattle.std.specs.Prelude.{◌+◌, ◌<◌, ◌≤◌, ◌^◌};

mod calls;

// A board over any board: its point p is the point p + start below. It has at least one point, and all of them are on the board below.
// That they are on it is no ghost field: one that speaks of the board would ask `B: Board` of this type, and so of every type that holds a shift.
#[derive(Drop)]
pub struct Shift<B> {
    below: B,
    start: usize,
    size: usize,
    ghost some: { 1 ≤ size },
    ghost counted: { start + size < 2 ^ 64 },
}
