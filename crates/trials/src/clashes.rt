// The rows of accepted sheets.
use crate::support::{JOBS, accepts};
use std::test::Fail;

static ROWS: [(&str, &str); 13] = [
    ("", ""),
    ("\nfrom to delay\n", ""),
    ("T 0 0 -\n", "1 -\n"),
    ("T 0 0 -\n\nfrom to delay\n", "1 -\n"),
    (
        "S 30 0 0,1\nT 1 0 0\n\nfrom to delay\n0 1 30\n1 2 20\n",
        "1 -\n2 1\n",
    ),
    // the highest of several
    ("T 1 0 5\nT 2 0 5\nT 3 0 5\n", "1 -\n2 1\n3 2\n"),
    ("T 1 0 5\nT 2 0 6\nT 3 0 5,6\n", "1 -\n2 -\n3 2\n"),
    ("T 1 0 5\nT 2 0 6\nT 3 0 6,5\n", "1 -\n2 -\n3 2\n"),
    ("T 1 0 5\nT 2 0 6\nT 3 0 5\n", "1 -\n2 -\n3 1\n"),
    // without points there is no clash
    ("T 1 0 -\nT 1 0 -\n", "1 -\n2 -\n"),
    ("T 1 0 0\nT 1 0 -\nS 1 0 0\n", "1 -\n2 -\n3 1\n"),
    (
        "S 0 9 255\nT 0 0 1,2,3,4,5,6,7,255\nT 0 0 8\n",
        "1 -\n2 1\n3 -\n",
    ),
    // a wire between two jobs is no clash
    ("T 1 0 0\nT 1 0 1\n\nfrom to delay\n0 1 1\n", "1 -\n2 -\n"),
];

#[test]
fn clash_rows(rt: HostRuntime) -> Result<(), Fail> {
    accepts(&rt, JOBS, &ROWS, rt.alloc())
}
