ghost use Rattle.ranking.specs.Pedigrees.{pedigree_below, pedigree_same};
ghost use Rattle.std.proofs.Common.{rules};

use crate::order::Order;

// A follow-up by its parent's number and its place among the parent's follow-ups, from 1.
// The order of the fields is that of pedigrees: by parent, and by place where the parents are the same.
#[derive(Clone, Copy, PartialEq, Eq, PartialOrd, Ord, Debug)]
pub struct Pedigree {
    pub parent: u8,
    pub place: u8,
}

// As derived: by parent, and by place where the parents are the same.
impl Order for Pedigree {
    ghost below = { pedigree_below };

    ghost same = { pedigree_same };

    ghost one = { Prim.search rules };

    ghost carries = { Prim.search rules };

    ghost alike = { Prim.search rules };

    fn is_below(&self, other: &Pedigree) -> bool {
        self < other
    }

    fn is_same(&self, other: &Pedigree) -> bool {
        self == other
    }
}
