ghost use Rattle.std.specs.Prelude.{◌≡◌, ℕ, ◌<◌, true, ◌↔◌, nat_eq, nat_lt};
ghost use Rattle.std.specs.Ordering.{eq_by_cmp};
ghost use Rattle.job.specs.Plain.{Job};
ghost use Rattle.job.specs.Records.{job_of};
ghost use Rattle.ranking.specs.Orders.{AnswerAlike, OneOfThree, CarriesOver, CompareAlike, below_by, pair_below, pair_same};
ghost use Rattle.ranking.specs.Pedigrees.{pedigree_below, pedigree_same};
ghost use Rattle.ranking.specs.Standings.{standing_below, standing_same};
ghost use Rattle.ranking.specs.Laws.{SameEqualCounts, DifferentCounts, LargerCountLarger, DifferentEachOnce, NumberTellsApart, GenerationEachOnce, SheetByNumber, BelowByUrgency, UrgencyThenPoints, BelowByParent, ParentThenPlace, SameIfEqual};

use crate::order::Order;
use crate::pedigree::Pedigree;
use crate::precedence::{Precedence, SheetOrder, UrgencyOrder, standing};
use crate::standing::Standing;
use job::record::JobRecord;

// Every comparison of the library's `Ord` is total: of two values one is below the other or they are the same, below
// carries over, and values that are the same compare alike with every third. So what follows of an `Order` holds of it too.
pub fn total_order<E: Ord>()
    ensures one { OneOfThree (below_by E.cmp) (eq_by_cmp E.cmp) }
    ensures carries { CarriesOver (below_by E.cmp) }
    ensures alike { CompareAlike (below_by E.cmp) (eq_by_cmp E.cmp) }
    ensures same { SameEqualCounts (below_by E.cmp) (eq_by_cmp E.cmp) }
    ensures different { DifferentCounts (below_by E.cmp) (eq_by_cmp E.cmp) }
    ensures larger { LargerCountLarger (below_by E.cmp) }
    ensures each_once { DifferentEachOnce (below_by E.cmp) (eq_by_cmp E.cmp) }
    ensures apart { NumberTellsApart (eq_by_cmp E.cmp) }
    ensures generation { (keyed : Job → ℕ → E) → GenerationEachOnce (below_by E.cmp) (eq_by_cmp E.cmp) keyed }
{}

// Of elements of a list the larger has the larger count; those that are the same have equal counts, and only those.
pub fn larger_count_larger<E: Order>()
    ensures same { SameEqualCounts E.below E.same }
    ensures different { DifferentCounts E.below E.same }
    ensures larger { LargerCountLarger E.below }
{}

// The counts of n elements, no two of them the same, are the numbers from 0 to n - 1, each once.
pub fn counts_each_once<E: Order>()
    ensures { DifferentEachOnce E.below E.same }
{}

// The number tells two standings apart, so the counts of the standings of n jobs are the numbers from 0 to n - 1, each once.
pub fn standings_each_once<P: Precedence>(precedence: &P)
    ensures apart { NumberTellsApart P.Key.Order.same }
    ensures once { GenerationEachOnce P.Key.Order.below P.Key.Order.same (P.keyed precedence.now) }
{}

// A derived comparison, or the library's, has no code here that a contract could stand on. So each function from here on
// compares by the type's own comparison, and its clause `order` or `equality` says that this comparison answers as the
// subject's test does, by which `count_below` counts, whatever the values.

// Whether one pair is below another: by the first parts, then by the second.
pub fn pair_below<A: Ord, B: Ord>(p: &(A, B), q: &(A, B)) -> bool
    ensures value { result ≡ pair_below (below_by A.cmp) (eq_by_cmp A.cmp) (below_by B.cmp) p.now q.now }
    ensures order { AnswerAlike (below_by ⟦<(A, B) as Ord>⟧.cmp) (pair_below (below_by A.cmp) (eq_by_cmp A.cmp) (below_by B.cmp)) }
{
    p < q
}

// Whether pairs are the same: if both parts are.
pub fn pair_same<A: Ord, B: Ord>(p: &(A, B), q: &(A, B)) -> bool
    ensures value { result ≡ pair_same (eq_by_cmp A.cmp) (eq_by_cmp B.cmp) p.now q.now }
    ensures equality { AnswerAlike (eq_by_cmp ⟦<(A, B) as Ord>⟧.cmp) (pair_same (eq_by_cmp A.cmp) (eq_by_cmp B.cmp)) }
{
    p == q
}

// Whether one standing is below another: by key, then by number.
pub fn standing_below<K: Ord>(s: &Standing<K>, t: &Standing<K>) -> bool
    ensures value { result ≡ standing_below (below_by K.cmp) (eq_by_cmp K.cmp) s.now t.now }
    ensures order { AnswerAlike (below_by ⟦<Standing<K> as Ord>⟧.cmp) (standing_below (below_by K.cmp) (eq_by_cmp K.cmp)) }
{
    s < t
}

// Whether standings are the same: if both key and number are.
pub fn standing_same<K: Ord>(s: &Standing<K>, t: &Standing<K>) -> bool
    ensures value { result ≡ standing_same (eq_by_cmp K.cmp) s.now t.now }
    ensures equality { AnswerAlike (eq_by_cmp ⟦<Standing<K> as Ord>⟧.cmp) (standing_same (eq_by_cmp K.cmp)) }
{
    s == t
}

// Sheet order and urgency order each have a function, since what they promise differs.

// Whether one job is below another under sheet order: exactly if its number is smaller.
pub fn sheet_below(job: &JobRecord, m: u8, other: &JobRecord, n: u8) -> bool
    ensures value { (result ≡ true) ↔ (m < n) }
    ensures law { SheetByNumber }
    ensures order { AnswerAlike (below_by ⟦<Standing<u8> as Ord>⟧.cmp) (standing_below nat_lt nat_eq) }
{
    standing(&SheetOrder, job, m) < standing(&SheetOrder, other, n)
}

// Whether one job is below another under urgency order: by urgency, then by the count of points, then by number.
pub fn urgency_below(job: &JobRecord, m: u8, other: &JobRecord, n: u8) -> bool
    ensures value { (result ≡ true) ↔ BelowByUrgency (job_of job.now) m (job_of other.now) n }
    ensures law { UrgencyThenPoints }
    ensures order { AnswerAlike (below_by ⟦<Standing<(u8, u8)> as Ord>⟧.cmp) (standing_below (pair_below nat_lt nat_eq nat_lt) (pair_same nat_eq nat_eq)) }
{
    standing(&UrgencyOrder, job, m) < standing(&UrgencyOrder, other, n)
}

// Whether one pedigree is below another: by parent, then by place.
pub fn pedigree_below(one: &Pedigree, other: &Pedigree) -> bool
    ensures value { (result ≡ true) ↔ BelowByParent one.now other.now }
    ensures law { ParentThenPlace }
    ensures order { AnswerAlike (below_by ⟦<Pedigree as Ord>⟧.cmp) pedigree_below }
{
    one < other
}

// Whether pedigrees are the same: exactly if both parts are equal.
pub fn pedigree_same(one: &Pedigree, other: &Pedigree) -> bool
    ensures value { (result ≡ true) ↔ (one.now ≡ other.now) }
    ensures law { SameIfEqual }
    ensures equality { AnswerAlike (eq_by_cmp ⟦<Pedigree as Ord>⟧.cmp) pedigree_same }
{
    one == other
}
