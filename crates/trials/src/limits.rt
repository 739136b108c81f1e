// The limits of a sheet: jobs, wires and bytes.
use crate::support::{JOBS, WIRES, accepts, joined, refuses, repeated};
use std::alloc::{AllocError, Global};
use std::fmt::Write;
use std::test::Fail;

// Behind 64 jobs, which are the lines 2 to 65.
static AFTER_JOBS: [(&str, &str); 10] = [
    ("T 1 0 -\n", "6 66 0 0"),
    ("T 1 0 -", "6 66 0 0"),
    ("T 1\n", "6 66 0 0"),
    (" \n", "6 66 0 0"),
    ("x", "6 66 0 0"),
    ("t x 10 256\n", "6 66 0 0"),
    ("T 1 0 3,3\n", "6 66 0 0"),
    ("\n", "2 67 0 0"),
    ("\nfrom to\n", "2 67 0 0"),
    ("\nfrom to delay\n5 5 1\n", "7 68 0 0"),
];

// Behind 63 jobs, which are the lines 2 to 64.
static IN_LAST_JOB: [(&str, &str); 3] = [
    ("T 1 0 -", "3 65 0 0"),
    ("T 1 0 256\n", "4 65 4 2"),
    ("T 1 0 -\nT 1 0 -\n", "6 66 0 0"),
];

// Behind 256 wires, which are the lines 4 to 259: four from each of the points 0 to 63.
static AFTER_WIRES: [(&str, &str); 7] = [
    ("70 71 1\n", "6 260 0 0"),
    ("70 71 1", "6 260 0 0"),
    ("\n", "6 260 0 0"),
    ("x", "6 260 0 0"),
    ("0 1\n", "6 260 0 0"),
    ("5 5 x\n", "6 260 0 0"),
    ("0 1 1\n", "6 260 0 0"),
];

// A sheet of so many jobs, all with the same point.
fn job_sheet(count: usize, heap: Global) -> Result<String, AllocError> {
    let lines = repeated("T 1 0 7\n", count, heap)?;
    joined(JOBS, lines.as_str(), heap)
}

// The rows of 64 jobs, each of which clashes with the one before it.
fn chained_rows(heap: Global) -> Result<String, AllocError> {
    let mut rows = String::from_str(heap, "1 -\n")?;
    for before in 1..64u32 {
        writeln!(rows, "{} {before}", before + 1)?;
    }
    Ok(rows)
}

// A sheet of four wires from each of the first points.
fn wire_sheet(points: u32, heap: Global) -> Result<String, AllocError> {
    let mut text = String::from_str(heap, WIRES)?;
    for from in 0..points {
        let line = format!(in heap; "{from} 255 1\n")?;
        let four = repeated(line.as_str(), 4, heap)?;
        text.push_str(four.as_str())?;
    }
    Ok(text)
}

// A sheet of so many bytes, all but 27 of them digits of an argument.
fn long_sheet(bytes: usize, heap: Global) -> Result<String, AllocError> {
    let digits = repeated("1", bytes.saturating_sub(27), heap)?;
    format!(in heap; "{JOBS}T {} 0 -\n", digits.as_str())
}

#[test]
fn most_jobs(rt: HostRuntime) -> Result<(), Fail> {
    let heap = rt.alloc();
    let sheet = job_sheet(64, heap)?;
    let rows = chained_rows(heap)?;
    let cases = [
        ("", rows.as_str()),
        ("\nfrom to delay\n", rows.as_str()),
        ("\nfrom to delay\n0 1 2\n", rows.as_str()),
    ];
    accepts(&rt, sheet.as_str(), &cases, heap)?;
    refuses(&rt, sheet.as_str(), &AFTER_JOBS, heap)?;
    let sheet = job_sheet(63, heap)?;
    refuses(&rt, sheet.as_str(), &IN_LAST_JOB, heap)
}

#[test]
fn most_wires(rt: HostRuntime) -> Result<(), Fail> {
    let heap = rt.alloc();
    let sheet = wire_sheet(64, heap)?;
    accepts(&rt, sheet.as_str(), &[("", "")], heap)?;
    refuses(&rt, sheet.as_str(), &AFTER_WIRES, heap)
}

#[test]
fn most_bytes(rt: HostRuntime) -> Result<(), Fail> {
    let heap = rt.alloc();
    let most = long_sheet(16384, heap)?;
    let above = long_sheet(16385, heap)?;
    assert_eq!(rt; most.len(), 16384);
    assert_eq!(rt; above.len(), 16385);
    let most_of_none = repeated("x", 16384, heap)?;
    let above_of_none = repeated("x", 16385, heap)?;
    let ends = repeated("\n", 20000, heap)?;
    let cases = [
        (most.as_str(), "4 2 2 2"),
        (above.as_str(), "13 0 0 0"),
        (most_of_none.as_str(), "2 1 0 0"),
        (above_of_none.as_str(), "13 0 0 0"),
        (ends.as_str(), "13 0 0 0"),
    ];
    refuses(&rt, "", &cases, heap)
}
