ghost use Rattle.std.specs.Prelude.{◌≡◌, ◌≤◌, ⊤, length};

use std::alloc::AllocError;

mod calls;

// A list that lies in place and holds at most N elements: the first `len` of its items.
// Memory is fixed, so no `Vec`; and records hold such a list and are `Copy`, so no `ArrayVec`.
pub struct FixedList<T: Copy, const N: usize> {
    items: [T; N],
    len: usize,
    // behind a reference a proof is not told the length of an array
    ghost whole: { length items ≡ N },
    ghost within: { len ≤ N },
}

// By hand: `derive(Clone, Copy)` is refused for a struct with a ghost field and a type parameter, and a model that shows
// only the list would not be `Copy`.
impl<T: Copy, const N: usize> Clone for FixedList<T, N> {
    ghost is_clone = { λ list copy. copy ≡ list };

    ghost is_infallible = { λ _. ⊤ };

    fn clone(&self) -> Result<FixedList<T, N>, AllocError> {
        Ok(*self)
    }
}

impl<T: Copy, const N: usize> Copy for FixedList<T, N> {}
