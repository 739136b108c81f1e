// Faults in plain words name the line and the field.
use crate::support::{JOBS, joined};
use listing::check::check as check_sheet;
use std::alloc::{AllocError, Global};
use std::test::Fail;

static SENTENCES: [(&str, &str); 6] = [
    (
        "T 1 0 -\nT 01 0 -\n",
        "Line 3, field 2 is no number: digits are allowed, without leading zeros.",
    ),
    (
        "T 1 10 -\n",
        "Line 2, field 3 is above its range: at most 9 is allowed.",
    ),
    (
        "T 1 0 256\n",
        "Line 2, field 4 is above its range: at most 255 is allowed.",
    ),
    (
        "T 1 0 3,3\n",
        "Line 2 has a point twice: the points of a job are all different.",
    ),
    (
        "T 1 0 -",
        "Line 2 has no line end: every line ends with one.",
    ),
    (
        "\nfrom to delay\n5 5 1\n",
        "Line 4 is a wire from a point to itself: a wire leads to another point.",
    ),
];

fn sentence(sheet: &str, heap: Global) -> Result<String, AllocError> {
    match check_sheet(sheet.as_bytes(), heap) {
        Ok(_report) => String::from_str(heap, "accepted"),
        Err(fault) => format!(in heap; "{fault}"),
    }
}

#[test]
fn plain_words(rt: HostRuntime) -> Result<(), Fail> {
    let heap = rt.alloc();
    for (lines, wanted) in &SENTENCES {
        let sheet = joined(JOBS, lines, heap)?;
        let told = sentence(sheet.as_str(), heap)?;
        assert_eq!(rt; told.as_str(), *wanted, "{lines:?}");
    }
    let told = sentence("", heap)?;
    assert_eq!(rt;
        told.as_str(),
        "The sheet is empty: a line of names is wanted."
    );
    Ok(())
}
