ghost use Rattle.std.specs.Prelude.{◌≡◌, Bool, nat_eq, nat_lt};
ghost use Rattle.ranking.specs.Orders.{OneOfThree, CarriesOver, CompareAlike, pair_below, pair_same};
ghost use Rattle.std.proofs.Common.{rules};

// A total order, in which different values may count as the same. It is not the library's `Ord`, by whose law `==` looks
// at no more than the order does.
pub trait Order {
    ghost below: { Self → Self → Bool };

    ghost same: { Self → Self → Bool };

    fn is_below(&self, other: &Self) -> bool
        ensures { result ≡ below self.now other.now };

    fn is_same(&self, other: &Self) -> bool
        ensures { result ≡ same self.now other.now };

    ghost one: { OneOfThree below same };

    ghost carries: { CarriesOver below };

    ghost alike: { CompareAlike below same };
}

impl Order for u8 {
    ghost below = { nat_lt };

    ghost same = { nat_eq };

    ghost one = { Prim.search rules };

    ghost carries = { Prim.search rules };

    ghost alike = { Prim.search rules };

    fn is_below(&self, other: &u8) -> bool {
        *self < *other
    }

    fn is_same(&self, other: &u8) -> bool {
        *self == *other
    }
}

// By the first parts, and by the second where the first are the same.
impl<A: Order, B: Order> Order for (A, B) {
    ghost below = { pair_below A.Order.below A.Order.same B.Order.below };

    ghost same = { pair_same A.Order.same B.Order.same };

    ghost one = { Prim.search rules };

    ghost carries = { Prim.search rules };

    ghost alike = { Prim.search rules };

    fn is_below(&self, other: &(A, B)) -> bool {
        self.0.is_below(&other.0) || self.0.is_same(&other.0) && self.1.is_below(&other.1)
    }

    fn is_same(&self, other: &(A, B)) -> bool {
        self.0.is_same(&other.0) && self.1.is_same(&other.1)
    }
}
