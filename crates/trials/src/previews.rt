// The preview of a draft against a table.
use crate::support::held;
use job::draft::JobDraft;
use job::fault::{FieldFault, JobFault, PreviewFault};
use job::preview::preview;
use job::refusal::Refusal;
use job::table::JobTable;
use sheet::read::read;
use std::alloc::{AllocError, Global};
use std::process::Abort;
use std::test::Fail;
use wiring::table::WireTable;

// Job 1 has point 5, job 2 has 6, job 3 has 5 and 7, job 4 has none, job 5 has 255.
const SHEET: &str = "proc arg urg points\nT 1 0 5\nS 2 0 6\nT 3 0 5,7\nT 4 0 -\nS 5 0 255\n";

// Letter, urgency and points of a draft, and the answer: a job, `-` for none, or the numbers of the refusal.
static DRAFTS: [(char, u32, &[u32], &str); 33] = [
    ('T', 0, &[5], "3"),
    ('T', 0, &[6], "2"),
    ('T', 0, &[7], "3"),
    ('S', 9, &[6, 5], "3"),
    ('T', 0, &[7, 6], "3"),
    ('T', 0, &[0, 8, 255], "5"),
    ('T', 0, &[8], "-"),
    ('T', 0, &[], "-"),
    ('A', 0, &[6], "2"),
    ('Z', 0, &[6], "2"),
    ('T', 0, &[0, 1, 2, 3, 4, 8, 9, 6], "2"),
    ('@', 0, &[6], "4 0 0 3"),
    ('[', 0, &[6], "4 0 0 3"),
    ('t', 0, &[6], "4 0 0 3"),
    ('5', 0, &[6], "4 0 0 3"),
    ('T', 10, &[6], "4 0 0 2"),
    ('T', 4294967295, &[6], "4 0 0 2"),
    ('T', 0, &[0, 1, 2, 3, 4, 5, 6, 7, 8], "4 0 0 4"),
    ('T', 0, &[256], "4 0 0 2"),
    ('T', 0, &[5, 4294967295], "4 0 0 2"),
    ('T', 0, &[6, 6], "5 0 0 0"),
    ('T', 0, &[0, 1, 2, 3, 4, 5, 6, 0], "5 0 0 0"),
    // the first fault counts: letter, urgency, number of points, points from the left, a point twice
    ('a', 10, &[6], "4 0 0 3"),
    ('a', 0, &[0, 1, 2, 3, 4, 5, 6, 7, 8], "4 0 0 3"),
    ('a', 0, &[256], "4 0 0 3"),
    ('a', 0, &[6, 6], "4 0 0 3"),
    ('T', 10, &[0, 1, 2, 3, 4, 5, 6, 7, 8], "4 0 0 2"),
    ('T', 10, &[6, 6], "4 0 0 2"),
    ('T', 0, &[256, 1, 2, 3, 4, 5, 6, 7, 8], "4 0 0 4"),
    ('T', 0, &[6, 6, 6, 6, 6, 6, 6, 6, 6], "4 0 0 4"),
    ('T', 0, &[6, 6, 256], "4 0 0 2"),
    ('T', 0, &[256, 6, 6], "4 0 0 2"),
    ('a', 10, &[256, 6, 6, 6, 6, 6, 6, 6, 6], "4 0 0 3"),
];

fn drafted(
    letter: char,
    urgency: u32,
    points: &[u32],
    heap: Global,
) -> Result<JobDraft, AllocError> {
    Ok(JobDraft {
        letter,
        argument: 1,
        urgency,
        points: points.to_vec(heap)?,
    })
}

fn table() -> Result<JobTable, Fail> {
    let mut jobs = JobTable::new();
    let mut wires = WireTable::new();
    read(SHEET.as_bytes(), &mut jobs, &mut wires)?;
    Ok(jobs)
}

fn all_are(marks: &[u8], value: u8) -> bool {
    marks.iter().all(|mark| *mark == value)
}

fn answer_text(
    answer: Result<Option<usize>, PreviewFault>,
    heap: Global,
) -> Result<String, AllocError> {
    match answer {
        Ok(Some(number)) => format!(in heap; "{number}"),
        Ok(None) => String::from_str(heap, "-"),
        Err(fault) => {
            let refusal = Refusal::from(fault);
            format!(in heap; "{refusal}")
        }
    }
}

// The answer on marks that were filled before, and that are blank afterwards.
fn previewed(
    rt: &impl Abort,
    jobs: &JobTable,
    draft: &JobDraft,
    heap: Global,
) -> Result<String, Fail> {
    let mut marks = [1u8; 256];
    let answer = preview(jobs, draft, &mut marks);
    assert!(rt; all_are(&marks, 0), "marks are left");
    Ok(answer_text(answer, heap)?)
}

// That marks of another length are refused first of all, and stay as they were.
fn refuses_marks(
    rt: &impl Abort,
    jobs: &JobTable,
    marks: &mut [u8],
    heap: Global,
) -> Result<(), Fail> {
    for letter in ['T', 'a'] {
        let draft = drafted(letter, 0, &[6], heap)?;
        let told = answer_text(preview(jobs, &draft, marks), heap)?;
        assert_eq!(rt; told.as_str(), "13 0 0 0");
        assert!(rt; all_are(marks, 7), "marks have changed");
    }
    Ok(())
}

#[test]
fn drafts(rt: HostRuntime) -> Result<(), Fail> {
    let heap = rt.alloc();
    let jobs = table()?;
    let none = WireTable::new();
    let before = held(&jobs, &none, heap)?;
    for (letter, urgency, points, wanted) in &DRAFTS {
        let draft = drafted(*letter, *urgency, points, heap)?;
        let told = previewed(&rt, &jobs, &draft, heap)?;
        assert_eq!(rt; told.as_str(), *wanted, "{letter} {urgency} {points:?}");
    }
    let after = held(&jobs, &none, heap)?;
    assert_eq!(rt; after.as_str(), before.as_str());
    let draft = drafted('T', 0, &[5], heap)?;
    let told = previewed(&rt, &JobTable::new(), &draft, heap)?;
    assert_eq!(rt; told.as_str(), "-", "an empty table");
    Ok(())
}

#[test]
fn lent_marks(rt: HostRuntime) -> Result<(), Fail> {
    let jobs = table()?;
    refuses_marks(&rt, &jobs, &mut [7u8; 255], rt.alloc())?;
    refuses_marks(&rt, &jobs, &mut [7u8; 257], rt.alloc())?;
    refuses_marks(&rt, &jobs, &mut [], rt.alloc())
}

// Urgency and point above their range have the same numbers, and are told apart by the limit.
#[test]
fn urgency_first(rt: HostRuntime) -> Result<(), Fail> {
    let draft = drafted('T', 10, &[256], rt.alloc())?;
    let mut marks = [0u8; 256];
    let wanted = PreviewFault::Candidate(JobFault::Field(FieldFault::AboveRange(9)));
    assert_eq!(rt; preview(&table()?, &draft, &mut marks), Err(wanted));
    Ok(())
}
