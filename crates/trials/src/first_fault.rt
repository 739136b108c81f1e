// Which of several faults counts.
use crate::support::{JOBS, WIRES, refuses};
use std::test::Fail;

static IN_JOBS: [(&str, &str); 18] = [
    // the shape before the fields
    ("t x 10\n", "3 2 0 0"),
    ("t x 10 256", "3 2 0 0"),
    ("T 1 0 3,3", "3 2 0 0"),
    // the fields from the left
    ("t x 10 256\n", "4 2 1 3"),
    ("T x 10 256\n", "4 2 2 1"),
    ("T 1 10 256\n", "4 2 3 2"),
    ("T 1 0 256\n", "4 2 4 2"),
    // the fields before a point twice
    ("t 1 0 3,3\n", "4 2 1 3"),
    ("T 1 0 3,3,256\n", "4 2 4 2"),
    ("T 1 0 3,3,x\n", "4 2 4 1"),
    // the number of points before its pieces, and before a point twice
    ("T 1 0 x,1,2,3,4,5,6,7,8\n", "4 2 4 4"),
    ("T 1 0 256,1,2,3,4,5,6,7,8\n", "4 2 4 4"),
    ("T 1 0 0,0,0,0,0,0,0,0,0\n", "4 2 4 4"),
    // the pieces from the left
    ("T 1 0 256,x\n", "4 2 4 2"),
    ("T 1 0 x,256\n", "4 2 4 1"),
    ("T 1 0 1,256,01\n", "4 2 4 2"),
    ("T 1 0 1,,256\n", "4 2 4 1"),
    // digits before the range
    ("T 4294967296x 0 -\n", "4 2 2 1"),
];

static IN_WIRES: [(&str, &str); 10] = [
    ("x 256\n", "3 4 0 0"),
    ("x 5 5", "3 4 0 0"),
    ("5 5 1", "3 4 0 0"),
    ("x 256 y\n", "4 4 1 1"),
    ("256 x y\n", "4 4 1 2"),
    ("0 256 x\n", "4 4 2 2"),
    ("5 5 x\n", "4 4 3 1"),
    ("5 5 4294967296\n", "4 4 3 2"),
    ("1 2 0\n1 3 0\n1 4 0\n1 5 0\n1 6 x\n", "4 8 3 1"),
    ("1 2 0\n1 3 0\n1 4 0\n1 5 0\n1 6\n", "3 8 0 0"),
];

// The first faulty line counts, whatever follows it.
static LINES: [(&str, &str); 8] = [
    ("T 1 0 3,3\nt 1 0 -\n", "5 2 0 0"),
    ("T 1 0 -\nT 1 10 -\nT\n", "4 3 3 2"),
    ("t 1 0 -\nT", "4 2 1 3"),
    ("T\n\nfrom\n", "3 2 0 0"),
    ("T 1 0 -\nT x 0 -\n\nfrom\n", "4 3 2 1"),
    ("T 1 0 -\n\nfrom\nx y z\n", "2 4 0 0"),
    ("\nfrom to delay\n5 5 1\nx\n", "7 4 0 0"),
    ("T 1 0 -\n\nfrom to delay\n0 1 x\n0", "4 5 3 1"),
];

#[test]
fn first_counts(rt: HostRuntime) -> Result<(), Fail> {
    refuses(&rt, JOBS, &IN_JOBS, rt.alloc())?;
    refuses(&rt, WIRES, &IN_WIRES, rt.alloc())?;
    refuses(&rt, JOBS, &LINES, rt.alloc())
}
