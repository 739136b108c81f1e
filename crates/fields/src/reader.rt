ghost use Rattle.std.specs.Prelude.{◌≤◌, length};

mod calls;

// Walks over the bytes that it was lent, and hands them on piece by piece.
#[derive(Drop)]
pub struct Reader<'a> {
    bytes: &'a [u8],
    // where the next piece begins
    place: usize,
    // whether the last piece, which no separator ends, was handed on; the place stays known, so it is no Option
    done: bool,
    ghost within: { place ≤ length bytes.now },
}
