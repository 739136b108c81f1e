// Counts of those below, under each order.
ghost use Rattle.std.specs.Prelude.{◌-◌, nat_eq, nat_lt};
ghost use Rattle.std.proofs.Common.{rules};

use job::draft::JobDraft;
use job::record::JobRecord;
use ranking::count::count_below;
use ranking::order::Order;
use ranking::pedigree::Pedigree;
use ranking::precedence::{Precedence, SheetOrder, UrgencyOrder, standing};
use ranking::standing::Standing;
use std::alloc::{AllocError, Global};
use std::test::Fail;

// The counts of the elements, as text.
fn counts<E: Order>(all: &[E], heap: Global) -> Result<String, AllocError> {
    let counts: Vec<usize> = all.iter().map(|one| count_below(all, one)).collect(heap)?;
    format!(in heap; "{counts:?}")
}

#[test]
fn numbers(rt: HostRuntime) -> Result<(), Fail> {
    let heap = rt.alloc();
    assert_eq!(rt; counts(&[5u8, 2, 9, 2], heap)?.as_str(), "[2, 0, 3, 0]");
    assert_eq!(rt; counts(&[7u8], heap)?.as_str(), "[0]");
    assert_eq!(rt; count_below(&[5u8, 2, 9, 2], &5), 2);
    let none: [u8; 0] = [];
    assert_eq!(rt; count_below(&none, &255), 0);
    Ok(())
}

fn held<K>(key: K, number: u8) -> Standing<K> {
    Standing { key, number }
}

// Where keys are the same the number decides.
#[test]
fn standings(rt: HostRuntime) -> Result<(), Fail> {
    let heap = rt.alloc();
    let by_one = [held(4u8, 1), held(4, 2), held(1, 3), held(4, 4)];
    assert_eq!(rt; counts(&by_one, heap)?.as_str(), "[1, 2, 0, 3]");
    let by_two = [
        held((2u8, 1u8), 1),
        held((0, 5), 2),
        held((2, 1), 3),
        held((2, 0), 4),
    ];
    assert_eq!(rt; counts(&by_two, heap)?.as_str(), "[2, 0, 3, 1]");
    assert_eq!(rt; by_two[0].is_same(&by_two[2]), false);
    assert!(rt; by_two[0] != by_two[2]);
    Ok(())
}

fn pedigree(parent: u8, place: u8) -> Pedigree {
    Pedigree { parent, place }
}

#[test]
fn pedigrees(rt: HostRuntime) -> Result<(), Fail> {
    let all = [
        pedigree(2, 1),
        pedigree(1, 2),
        pedigree(2, 2),
        pedigree(1, 1),
    ];
    assert_eq!(rt; counts(&all, rt.alloc())?.as_str(), "[2, 1, 3, 0]");
    assert_eq!(rt; all[0].is_same(&pedigree(2, 1)), true);
    assert_eq!(rt; all[0].is_same(&pedigree(1, 2)), false);
    assert_eq!(rt; all[0], pedigree(2, 1));
    assert!(rt; all[0] != pedigree(1, 2));
    Ok(())
}

// An alarm is ordered by its level alone, while `==` looks at its point too.
#[derive(Clone, Copy, PartialEq, Eq, Debug)]
struct Alarm {
    level: u8,
    point: u8,
}

impl Order for Alarm {
    ghost below = { λ a b. nat_lt a.level b.level };

    ghost same = { λ a b. nat_eq a.level b.level };

    ghost one = { Prim.search rules };

    ghost carries = { Prim.search rules };

    ghost alike = { Prim.search rules };

    fn is_below(&self, other: &Alarm) -> bool {
        self.level < other.level
    }

    fn is_same(&self, other: &Alarm) -> bool {
        self.level == other.level
    }
}

fn raised(level: u8, point: u8) -> Alarm {
    Alarm { level, point }
}

// Alarms of one level count alike, whatever their points, and inside pairs and standings the other part decides.
#[test]
fn alarms(rt: HostRuntime) -> Result<(), Fail> {
    let heap = rt.alloc();
    let all = [raised(3, 7), raised(1, 4), raised(3, 2), raised(2, 7)];
    assert_eq!(rt; counts(&all, heap)?.as_str(), "[2, 0, 2, 1]");
    assert_eq!(rt; all[0].is_same(&all[2]), true);
    assert!(rt; all[0] != all[2]);
    assert_eq!(rt; all[0].is_same(&all[3]), false);
    let pairs = [(raised(3, 2), 6u8), (raised(3, 7), 5), (raised(1, 9), 8)];
    assert_eq!(rt; counts(&pairs, heap)?.as_str(), "[2, 1, 0]");
    let standings = [
        held(raised(3, 7), 1),
        held(raised(3, 2), 2),
        held(raised(1, 9), 3),
    ];
    assert_eq!(rt; counts(&standings, heap)?.as_str(), "[1, 2, 0]");
    Ok(())
}

fn record(urgency: u32, points: &[u32], heap: Global) -> Result<JobRecord, Fail> {
    let draft = JobDraft {
        letter: 'T',
        argument: 1,
        urgency,
        points: points.to_vec(heap)?,
    };
    Ok(JobRecord::try_from(&draft)?)
}

// The counts of numbered jobs under a precedence.
fn under<P: Precedence>(
    precedence: &P,
    jobs: &[(JobRecord, u8)],
    heap: Global,
) -> Result<String, AllocError> {
    let all: Vec<Standing<P::Key>> = jobs
        .iter()
        .map(|(job, number)| standing(precedence, job, *number))
        .collect(heap)?;
    counts(all.as_slice(), heap)
}

// Jobs by an alarm of their urgency. Its point falls as the number rises, but of equal urgencies the smaller number is
// below all the same, since the order looks at no point.
#[derive(Clone, Copy)]
struct ByAlarm;

impl Precedence for ByAlarm {
    type Key = Alarm;

    ghost keyed = { λ _ job n. record { level = job.urgency; point = 255 - n } };

    fn key(&self, job: &JobRecord, number: u8) -> Alarm {
        Alarm {
            level: job.urgency(),
            point: 255 - number,
        }
    }
}

#[test]
fn precedences(rt: HostRuntime) -> Result<(), Fail> {
    let heap = rt.alloc();
    let jobs = [
        (record(3, &[7, 9], heap)?, 1),
        (record(0, &[1, 2, 3], heap)?, 2),
        (record(3, &[4], heap)?, 3),
        (record(3, &[0, 5], heap)?, 4),
    ];
    assert_eq!(rt; under(&SheetOrder, &jobs, heap)?.as_str(), "[0, 1, 2, 3]");
    assert_eq!(rt; under(&UrgencyOrder, &jobs, heap)?.as_str(), "[2, 0, 1, 3]");
    assert_eq!(rt; under(&ByAlarm, &jobs, heap)?.as_str(), "[1, 0, 2, 3]");
    Ok(())
}
