ghost use Rattle.std.specs.Prelude.{◌≡◌};
ghost use Rattle.fixed.specs.Lists.{all_differ};

// Whether no two elements are equal.
pub fn all_different<T: PartialEq>(items: &[T]) -> bool
    ensures { result ≡ all_differ T.eq items.now }
{
    let mut left = items;
    while let Some((first, rest)) = left.split_first() {
        if rest.contains(first) {
            return false;
        }
        left = rest;
    }
    true
}
