ghost use Rattle.std.specs.Prelude.{◌≡◌, ◌≤◌, [], length, nat_le};
ghost use Rattle.fixed.specs.Fixed.{list_of, Pushed};

use crate::list::FixedList;

impl<T: Copy, const N: usize> FixedList<T, N> {
    // A list without elements; `blank` fills the places that are not in use.
    pub fn new(blank: T) -> Self
        ensures { list_of result ≡ [] }
    {
        FixedList {
            items: [blank; N],
            len: 0,
        }
    }

    pub fn len(&self) -> usize
        ensures value { result ≡ length (list_of self.now) }
        ensures bound { result ≤ N }
    {
        self.len
    }

    pub fn is_full(&self) -> bool
        ensures { result ≡ nat_le N (length (list_of self.now)) }
    {
        self.len >= N
    }

    pub fn as_slice(&self) -> &[T]
        ensures value { result.now ≡ list_of self.now }
        ensures bound { length result.now ≤ N }
    {
        &self.items[..self.len]
    }

    pub fn clear(&mut self)
        ensures { list_of self.new ≡ [] }
    {
        self.len = 0;
    }

    // One element more, behind the others; a full list stays as it is, and the element comes back.
    #[tactic(auto, using(std::proofs::lemmas::List::take_more_set))]
    pub fn push(&mut self, x: T) -> Result<(), T>
        ensures { Pushed N (λ y. y) (list_of self.old) x result (list_of self.new) }
    {
        if self.len >= N {
            return Err(x);
        }
        self.items[self.len] = x;
        self.len += 1;
        Ok(())
    }
}
