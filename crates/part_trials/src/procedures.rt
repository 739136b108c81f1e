// What procedures propose, and which proposals are spoilt.
ghost use Rattle.procedure.specs.Proposals.{AsMany};

use fixed::list::FixedList;
use job::draft::JobDraft;
use job::record::JobRecord;
use procedure::paired::Paired;
use procedure::procedure::Procedure;
use procedure::proposal::Proposal;
use procedure::spread::Spread;
use procedure::tally::Tally;
use std::alloc::{AllocError, Global};
use std::process::Abort;
use std::test::Fail;
use wiring::wire::Wire;

// Letter, argument and words of a job, and the words that a tally makes of them.
static TALLIES: [(char, u32, &[u32], &str); 9] = [
    ('T', 10, &[4294967284], "[4294967294]"),
    ('T', 10, &[4294967285], "[4294967295]"),
    ('T', 10, &[4294967286], "[4294967295]"),
    (
        'T',
        4294967295,
        &[0, 1, 4294967295],
        "[4294967295, 4294967295, 4294967295]",
    ),
    ('T', 3, &[0, 5, 9], "[3, 8, 12]"),
    ('T', 3, &[], "[]"),
    ('S', 10, &[5, 0], "[5, 0]"),
    ('U', 10, &[5], "[5]"),
    ('A', 10, &[5], "[5]"),
];

// Four wires from point 8, and one from 9.
static WIRES: [Wire; 6] = [
    Wire {
        from: 8,
        to: 9,
        delay: 3,
    },
    Wire {
        from: 9,
        to: 8,
        delay: 1,
    },
    Wire {
        from: 8,
        to: 1,
        delay: 0,
    },
    Wire {
        from: 8,
        to: 9,
        delay: 3,
    },
    Wire {
        from: 7,
        to: 8,
        delay: 2,
    },
    Wire {
        from: 8,
        to: 2,
        delay: 4294967295,
    },
];

// Five wires from point 8.
static FIVE: [Wire; 5] = [Wire {
    from: 8,
    to: 9,
    delay: 1,
}; 5];

// What a spread from point 8 along these wires hands in.
const SENT: &str = ", S 3 6 [8, 9], S 0 6 [8, 1], S 3 6 [8, 9], S 4294967295 6 [8, 2]";

// Letter, argument, points and words of a job of urgency 6, the words that a spread makes of them, and what it hands in.
static SPREADS: [(char, u32, &[u32], &[u32], &str, &str); 18] = [
    ('S', 5, &[7, 8], &[2, 0], "[2, 7]", SENT),
    ('S', 5, &[7, 8], &[2, 8], "[2, 7]", SENT),
    ('S', 5, &[7, 8], &[2, 7], "[2, 7]", ""),
    ('S', 5, &[7, 8], &[2, 6], "[2, 6]", ""),
    ('S', 0, &[7, 8], &[1, 0], "[1, 1]", SENT),
    ('S', 5, &[7, 8], &[0, 0], "[0, 0]", ""),
    ('S', 5, &[7, 8], &[0, 9], "[0, 9]", ""),
    (
        'S',
        5,
        &[7, 8],
        &[4294967290, 0],
        "[4294967290, 4294967295]",
        SENT,
    ),
    ('S', 6, &[7, 8], &[4294967290, 0], "[4294967290, 0]", ""),
    ('S', 5, &[8, 9], &[2, 0], "[2, 7]", ", S 1 6 [9, 8]"),
    ('S', 5, &[8, 3], &[2, 0], "[2, 7]", ""),
    ('S', 5, &[7], &[2], "[2]", ""),
    ('S', 5, &[], &[], "[]", ""),
    ('S', 5, &[7, 8, 9], &[2, 0, 0], "[2, 0, 0]", ""),
    ('S', 5, &[7, 8], &[2, 0, 0], "[2, 0, 0]", ""),
    ('S', 5, &[7, 8, 9], &[2, 0], "[2, 0]", ""),
    ('T', 5, &[7, 8], &[2, 0], "[2, 0]", ""),
    ('R', 5, &[7, 8], &[2, 0], "[2, 0]", ""),
];

// The cuts of two pairs inside a pair, from the left, and the words of S 5 and T 5 at 2 and 0.
// Left are a spread and a tally, right a tally and a spread.
static PAIRS: [(char, char, char, &str, &str); 8] = [
    ('T', 'U', 'A', "[2, 7]", "[7, 5]"),
    ('S', 'U', 'A', "[2, 0]", "[7, 5]"),
    ('U', 'U', 'A', "[2, 7]", "[2, 0]"),
    ('U', 'T', 'U', "[2, 7]", "[7, 5]"),
    ('A', 'T', 'T', "[2, 0]", "[2, 0]"),
    ('A', 'S', 'S', "[2, 7]", "[2, 0]"),
    ('A', 'S', 'T', "[2, 0]", "[2, 0]"),
    ('A', 'A', 'U', "[2, 0]", "[7, 5]"),
];

// Letter, urgency and points of a follow-up of argument 1, the board's size, and the verdict.
static FOLLOW_UPS: [(char, u32, &[u32], usize, &str); 20] = [
    ('@', 0, &[0], 1, "spoilt"),
    ('A', 0, &[0], 1, "good, A 1 0 [0]"),
    ('Z', 0, &[0], 1, "good, Z 1 0 [0]"),
    ('[', 0, &[0], 1, "spoilt"),
    ('a', 0, &[0], 1, "spoilt"),
    ('T', 9, &[0], 1, "good, T 1 9 [0]"),
    ('T', 10, &[0], 1, "spoilt"),
    ('T', 4294967295, &[0], 1, "spoilt"),
    (
        'T',
        0,
        &[7, 6, 5, 4, 3, 2, 1, 0],
        8,
        "good, T 1 0 [7, 6, 5, 4, 3, 2, 1, 0]",
    ),
    ('T', 0, &[0, 1, 2, 3, 4, 5, 6, 7, 8], 9, "spoilt"),
    ('T', 0, &[3, 1, 3], 4, "spoilt"),
    ('T', 0, &[1, 2, 3], 4, "good, T 1 0 [1, 2, 3]"),
    ('T', 0, &[1, 2, 4], 4, "spoilt"),
    ('T', 0, &[4, 1, 2], 4, "spoilt"),
    ('T', 0, &[4294967295], 4, "spoilt"),
    ('T', 0, &[], 0, "good, T 1 0 []"),
    ('T', 0, &[0], 0, "spoilt"),
    ('T', 0, &[255], 256, "good, T 1 0 [255]"),
    ('T', 0, &[256], 256, "spoilt"),
    ('T', 0, &[256], 300, "spoilt"),
];

fn drafted(
    letter: char,
    argument: u32,
    urgency: u32,
    points: &[u32],
    heap: Global,
) -> Result<JobDraft, AllocError> {
    Ok(JobDraft {
        letter,
        argument,
        urgency,
        points: points.to_vec(heap)?,
    })
}

// What a procedure hands in for a job of urgency 6 with these letter, argument and points.
fn asked<P: Procedure>(
    procedure: &P,
    (letter, argument, points): (char, u32, &[u32]),
    words: &[u32],
    heap: Global,
) -> Result<Proposal, Fail> {
    let job = JobRecord::try_from(&drafted(letter, argument, 6, points, heap)?)?;
    Ok(procedure.ask(&job, words, heap)?)
}

// The words of a proposal, and each follow-up.
fn proposal_text(proposal: &Proposal, heap: Global) -> Result<String, AllocError> {
    let words = proposal.words.as_slice();
    let mut text = format!(in heap; "{words:?}")?;
    for draft in proposal.follow_ups.as_slice() {
        let told = draft_text(draft, heap)?;
        text.push_str(told.as_str())?;
    }
    Ok(text)
}

fn draft_text(draft: &JobDraft, heap: Global) -> Result<String, AllocError> {
    let letter = draft.letter;
    let argument = draft.argument;
    let urgency = draft.urgency;
    let points = draft.points.as_slice();
    format!(in heap; ", {letter} {argument} {urgency} {points:?}")
}

// The follow-ups of a good proposal, or that it is spoilt.
fn verdict_text(
    verdict: Option<FixedList<JobRecord, 4>>,
    heap: Global,
) -> Result<String, AllocError> {
    let Some(jobs) = verdict else {
        return String::from_str(heap, "spoilt");
    };
    let mut text = String::from_str(heap, "good")?;
    for job in jobs.as_slice() {
        let draft = job.draft(heap)?;
        let told = draft_text(&draft, heap)?;
        text.push_str(told.as_str())?;
    }
    Ok(text)
}

// Asks, and compares the proposal with what is wanted.
fn proposes<P: Procedure>(
    rt: &impl Abort,
    procedure: &P,
    job: (char, u32, &[u32]),
    words: &[u32],
    wanted: &str,
    heap: Global,
) -> Result<(), Fail> {
    let told = proposal_text(&asked(procedure, job, words, heap)?, heap)?;
    assert_eq!(rt; told.as_str(), wanted, "{job:?} {words:?}");
    Ok(())
}

// Asks for S 5 at 7 and 8, and compares the verdict on a board of that size with what is wanted.
fn judges(
    rt: &impl Abort,
    spread: Spread<'_>,
    words: &[u32],
    size: usize,
    wanted: &str,
    heap: Global,
) -> Result<(), Fail> {
    let proposal = asked(&spread, ('S', 5, &[7, 8]), words, heap)?;
    let told = verdict_text(proposal.judged(size), heap)?;
    assert_eq!(rt; told.as_str(), wanted, "{words:?} {size}");
    Ok(())
}

// The verdict on a proposal with this follow-up alone.
fn judged(draft: JobDraft, size: usize, heap: Global) -> Result<String, Fail> {
    let proposal = Proposal {
        words: Vec::new(heap),
        follow_ups: vec![in heap; draft]?,
    };
    Ok(verdict_text(proposal.judged(size), heap)?)
}

// What is known of every procedure, whichever is lent.
fn gives_as_many(procedure: &dyn Procedure)
    ensures { AsMany (rule procedure.now) }
{
    let _ = procedure;
}

#[test]
fn lent_procedures(rt: HostRuntime) -> Result<(), Fail> {
    let job = JobRecord::try_from(&drafted('T', 4, 6, &[7, 8], rt.alloc())?)?;
    let lent: [&dyn Procedure; 2] = [&Tally, &Spread { wires: &WIRES }];
    for procedure in lent {
        gives_as_many(procedure);
        let proposal = procedure.ask(&job, &[1, 2], rt.alloc())?;
        assert_eq!(rt; proposal.words.len(), 2);
    }
    Ok(())
}

#[test]
fn tallies(rt: HostRuntime) -> Result<(), Fail> {
    for (letter, argument, words, wanted) in &TALLIES {
        proposes(
            &rt,
            &Tally,
            (*letter, *argument, &[7]),
            words,
            wanted,
            rt.alloc(),
        )?;
    }
    Ok(())
}

#[test]
fn spreads(rt: HostRuntime) -> Result<(), Fail> {
    let heap = rt.alloc();
    for (letter, argument, points, words, wanted, sent) in &SPREADS {
        let job = (*letter, *argument, *points);
        let all = format!(in heap; "{wanted}{sent}")?;
        proposes(
            &rt,
            &Spread { wires: &WIRES },
            job,
            words,
            all.as_str(),
            heap,
        )?;
        proposes(&rt, &Spread { wires: &[] }, job, words, wanted, heap)?;
    }
    Ok(())
}

#[test]
fn pairs(rt: HostRuntime) -> Result<(), Fail> {
    let spread = Spread { wires: &[] };
    for (left, middle, right, at_s, at_t) in &PAIRS {
        let first = Paired {
            first: spread,
            second: Tally,
            cut: *left,
        };
        let second = Paired {
            first: Tally,
            second: spread,
            cut: *right,
        };
        let pair = Paired {
            first,
            second,
            cut: *middle,
        };
        proposes(&rt, &pair, ('S', 5, &[7, 8]), &[2, 0], at_s, rt.alloc())?;
        proposes(&rt, &pair, ('T', 5, &[7, 8]), &[2, 0], at_t, rt.alloc())?;
    }
    Ok(())
}

#[test]
fn follow_ups(rt: HostRuntime) -> Result<(), Fail> {
    let heap = rt.alloc();
    for (letter, urgency, points, size, wanted) in &FOLLOW_UPS {
        let draft = drafted(*letter, 1, *urgency, points, heap)?;
        let told = judged(draft, *size, heap)?;
        assert_eq!(rt; told.as_str(), *wanted, "{letter} {points:?} {size}");
    }
    Ok(())
}

// A spread over four wires is good with its jobs in order, and one over five is spoilt.
#[test]
fn how_many(rt: HostRuntime) -> Result<(), Fail> {
    let heap = rt.alloc();
    let four = Spread { wires: &WIRES };
    let sent = format!(in heap; "good{SENT}")?;
    judges(&rt, four, &[2, 0], 10, sent.as_str(), heap)?;
    judges(&rt, four, &[2, 0], 9, "spoilt", heap)?;
    judges(&rt, four, &[0, 0], 9, "good", heap)?;
    judges(&rt, Spread { wires: &FIVE }, &[2, 0], 10, "spoilt", heap)
}
