// What the trials share: building a sheet, and comparing what is said of it.
use job::table::JobTable;
use listing::check::check;
use listing::fault::CheckFault;
use listing::text::{refusal_text, report_text};
use std::alloc::{AllocError, Global};
use std::fmt::Write;
use std::process::Abort;
use std::test::Fail;
use wiring::table::WireTable;

// The names of the columns: jobs begin at line 2 behind it.
pub(crate) const JOBS: &str = "proc arg urg points\n";

// A sheet without jobs: wires begin at line 4 behind it.
pub(crate) const WIRES: &str = "proc arg urg points\n\nfrom to delay\n";

// One text behind another.
pub(crate) fn joined(head: &str, tail: &str, heap: Global) -> Result<String, AllocError> {
    format!(in heap; "{head}{tail}")
}

// A text over and over.
pub(crate) fn repeated(part: &str, times: usize, heap: Global) -> Result<String, AllocError> {
    part.repeat(heap, times)
}

// The listing of a sheet that has no report.
fn refused(fault: CheckFault, heap: Global) -> Result<String, AllocError> {
    match fault.refusal() {
        Some(refusal) => refusal_text(refusal, heap),
        None => Err(AllocError),
    }
}

// The listing of a sheet.
fn listed(sheet: &str, heap: Global) -> Result<String, AllocError> {
    match check(sheet.as_bytes(), heap) {
        Ok(report) => report_text(&report, heap),
        Err(fault) => refused(fault, heap),
    }
}

// That each sheet, of the head and the lines of a case, is refused by the numbers of the case.
pub(crate) fn refuses(
    rt: &impl Abort,
    head: &str,
    cases: &[(&str, &str)],
    heap: Global,
) -> Result<(), Fail> {
    for (lines, numbers) in cases {
        let sheet = joined(head, lines, heap)?;
        let said = listed(sheet.as_str(), heap)?;
        let wanted = format!(in heap; "number line field reason\n{numbers}\n")?;
        assert_eq!(rt; said.as_str(), wanted.as_str(), "{lines:?}");
    }
    Ok(())
}

// That each sheet, of the head and the lines of a case, is accepted with the rows of the case.
pub(crate) fn accepts(
    rt: &impl Abort,
    head: &str,
    cases: &[(&str, &str)],
    heap: Global,
) -> Result<(), Fail> {
    for (lines, rows) in cases {
        let sheet = joined(head, lines, heap)?;
        let said = listed(sheet.as_str(), heap)?;
        let wanted = joined("job clash\n", rows, heap)?;
        assert_eq!(rt; said.as_str(), wanted.as_str(), "{lines:?}");
    }
    Ok(())
}

// What the tables hold: a line for each job, and then a line for each wire.
pub(crate) fn held(jobs: &JobTable, wires: &WireTable, heap: Global) -> Result<String, AllocError> {
    let mut text = String::new(heap);
    for job in jobs.records() {
        let letter = job.letter();
        let argument = job.argument();
        let urgency = job.urgency();
        let points = job.points();
        writeln!(text, "{letter} {argument} {urgency} {points:?}")?;
    }
    for wire in wires.wires() {
        writeln!(text, "{} {} {}", wire.from, wire.to, wire.delay)?;
    }
    Ok(text)
}
