// The lines of wires.
use crate::support::{WIRES, accepts, refuses};
use std::test::Fail;

// Lines without an end, or that are not three fields with one space between two.
static SHAPES: [(&str, &str); 14] = [
    ("0 1\n", "3 4 0 0"),
    ("0 1 2 3\n", "3 4 0 0"),
    ("T 1 0 -\n", "3 4 0 0"),
    ("0  1 2\n", "3 4 0 0"),
    ("0  1\n", "3 4 0 0"),
    (" 0 1 2\n", "3 4 0 0"),
    ("0 1 2 \n", "3 4 0 0"),
    ("0 1 \n", "3 4 0 0"),
    ("0\t1 2\n", "3 4 0 0"),
    ("\n", "3 4 0 0"),
    ("0 1 2\n\n", "3 5 0 0"),
    ("0 1 2\n\nfrom to delay\n", "3 5 0 0"),
    ("0 1 2", "3 4 0 0"),
    ("0 1 2\n3 4 5", "3 5 0 0"),
];

static FIELDS: [(&str, &str); 16] = [
    ("from to delay\n", "4 4 1 1"),
    ("00 1 2\n", "4 4 1 1"),
    ("- 1 2\n", "4 4 1 1"),
    ("256 1 2\n", "4 4 1 2"),
    ("0 01 2\n", "4 4 2 1"),
    ("0 1,2 3\n", "4 4 2 1"),
    ("0 256 2\n", "4 4 2 2"),
    ("0 1 00\n", "4 4 3 1"),
    ("0 1 02\n", "4 4 3 1"),
    ("0 1 -\n", "4 4 3 1"),
    ("0 1 2\t\n", "4 4 3 1"),
    ("0 1 2\r\n", "4 4 3 1"),
    ("0 1 4294967296\n", "4 4 3 2"),
    ("0 1 123456789012345678901234567890\n", "4 4 3 2"),
    ("123456789012345678901234567890 1 2\n", "4 4 1 2"),
    ("0 1 2\n0 1 x\n", "4 5 3 1"),
];

// A wire to itself, and a fifth from one point.
static LEADS: [(&str, &str); 5] = [
    ("5 5 1\n", "7 4 0 0"),
    ("0 0 0\n", "7 4 0 0"),
    ("5 6 1\n6 6 1\n", "7 5 0 0"),
    ("1 2 0\n1 3 0\n1 4 0\n1 5 0\n1 6 0\n", "7 8 0 0"),
    (
        "1 2 0\n1 2 0\n2 1 0\n1 2 0\n1 2 0\n3 1 0\n1 2 0\n",
        "7 10 0 0",
    ),
];

static GOOD: [(&str, &str); 6] = [
    ("", ""),
    ("0 1 0\n", ""),
    ("255 254 4294967295\n", ""),
    ("1 2 0\n1 3 0\n1 4 0\n1 5 0\n", ""),
    ("1 2 0\n1 2 0\n1 2 0\n1 2 0\n2 1 0\n", ""),
    ("1 9 0\n2 9 0\n3 9 0\n4 9 0\n5 9 0\n", ""),
];

#[test]
fn wire_lines(rt: HostRuntime) -> Result<(), Fail> {
    let heap = rt.alloc();
    refuses(&rt, WIRES, &SHAPES, heap)?;
    refuses(&rt, WIRES, &FIELDS, heap)?;
    refuses(&rt, WIRES, &LEADS, heap)?;
    accepts(&rt, WIRES, &GOOD, heap)
}
