// The two lines of names.
use crate::support::{JOBS, refuses};
use std::test::Fail;

// No bytes, or a first line that is not the four names.
static COLUMNS: [(&str, &str); 18] = [
    ("", "1 0 0 0"),
    ("\n", "2 1 0 0"),
    ("x", "2 1 0 0"),
    ("proc arg urg points", "2 1 0 0"),
    ("proc arg urg\n", "2 1 0 0"),
    ("proc arg urg points points\n", "2 1 0 0"),
    ("proc arg urg urg\n", "2 1 0 0"),
    ("proc arg urg point\n", "2 1 0 0"),
    ("Proc arg urg points\n", "2 1 0 0"),
    ("proc  arg urg points\n", "2 1 0 0"),
    (" proc arg urg points\n", "2 1 0 0"),
    ("proc arg urg points \n", "2 1 0 0"),
    ("proc\targ urg points\n", "2 1 0 0"),
    ("proc,arg,urg,points\n", "2 1 0 0"),
    ("proc arg urg points\r\n", "2 1 0 0"),
    ("from to delay\n", "2 1 0 0"),
    ("\nproc arg urg points\n", "2 1 0 0"),
    ("proc\nT\n", "2 1 0 0"),
];

// Behind an empty line, one that is not the three names; where it is missing, its place counts.
static ENDS: [(&str, &str); 14] = [
    ("\n", "2 3 0 0"),
    ("\nfrom to delay", "2 3 0 0"),
    ("\nfrom to\n", "2 3 0 0"),
    ("\nfrom to delay delay\n", "2 3 0 0"),
    ("\nto from delay\n", "2 3 0 0"),
    ("\nfrom to delay \n", "2 3 0 0"),
    ("\n from to delay\n", "2 3 0 0"),
    ("\nfrom  to delay\n", "2 3 0 0"),
    ("\nFrom to delay\n", "2 3 0 0"),
    ("\nfrom to delay\r\n", "2 3 0 0"),
    ("\n\n", "2 3 0 0"),
    ("\n0 1 2\n", "2 3 0 0"),
    ("T 1 0 -\n\n", "2 4 0 0"),
    ("T 1 0 -\n\n\nfrom to delay\n", "2 4 0 0"),
];

#[test]
fn wrong_names(rt: HostRuntime) -> Result<(), Fail> {
    refuses(&rt, "", &COLUMNS, rt.alloc())?;
    refuses(&rt, JOBS, &ENDS, rt.alloc())
}
