// Reading into tables that hold another sheet already, and what is known of every table.
ghost use Rattle.std.specs.Prelude.{◌≡◌, ◌≤◌, length, true, nat_le};
ghost use Rattle.std.specs.List.{list_all};
ghost use Rattle.job.specs.Records.{jobs_of};
ghost use Rattle.wiring.specs.Wires.{leads_on, tally};
ghost use Rattle.wiring.specs.Wiring.{wires_of};

use crate::support::{JOBS, held, joined};
use job::refusal::Refusal;
use job::table::JobTable;
use sheet::read::read;
use std::alloc::Global;
use std::process::Abort;
use std::test::Fail;
use wiring::table::WireTable;

// What the tables held before: a job, and as many wires from a point as there may be.
const BEFORE: &str =
    "proc arg urg points\nS 30 7 0,1\n\nfrom to delay\n1 2 3\n1 2 3\n1 2 3\n1 2 3\n";

const HELD_BEFORE: &str = "S 30 7 [0, 1]\n1 2 3\n1 2 3\n1 2 3\n1 2 3\n";

// A refused sheet leaves nothing; an accepted one leaves its own jobs and wires.
static SHEETS: [(&str, &str); 13] = [
    ("\n", "2 3 0 0\n"),
    ("T 1 0 5\n\n", "2 4 0 0\n"),
    ("T 1 0 5\nT 1 0\n", "3 3 0 0\n"),
    ("T 1 0 5\nT 1 0 x\n", "4 3 4 1\n"),
    ("T 1 0 5\nT 1 0 5,5\n", "5 3 0 0\n"),
    ("T 1 0 5\n\nfrom to delay\n1 2 0\n1 1 0\n", "7 6 0 0\n"),
    (
        "\nfrom to delay\n1 2 0\n1 2 0\n1 2 0\n1 2 0\n1 2 0\n",
        "7 8 0 0\n",
    ),
    ("\nfrom to delay\n1 2 0\n1 2", "3 5 0 0\n"),
    ("", ""),
    ("\nfrom to delay\n", ""),
    ("T 1 2 -\n", "T 1 2 []\n"),
    (
        "\nfrom to delay\n1 9 0\n1 9 0\n1 9 0\n1 9 0\n",
        "1 9 0\n1 9 0\n1 9 0\n1 9 0\n",
    ),
    (
        "T 5 0 9,8\nS 6 1 7\n\nfrom to delay\n1 9 0\n",
        "T 5 0 [9, 8]\nS 6 1 [7]\n1 9 0\n",
    ),
];

// Reads a sheet over another; tells the numbers of a refusal, and what the tables hold then.
fn read_over(
    rt: &impl Abort,
    sheet: &str,
    jobs: &mut JobTable,
    wires: &mut WireTable,
    heap: Global,
) -> Result<String, Fail> {
    read(BEFORE.as_bytes(), jobs, wires)?;
    let before = held(jobs, wires, heap)?;
    assert_eq!(rt; before.as_str(), HELD_BEFORE);
    let answer = read(sheet.as_bytes(), jobs, wires);
    let after = held(jobs, wires, heap)?;
    match answer {
        Ok(()) => Ok(after),
        Err(fault) => {
            let refusal = Refusal::from(fault);
            Ok(format!(in heap; "{refusal}\n{after}")?)
        }
    }
}

// What the types of the tables say, with no call.
fn is_table(jobs: &JobTable)
    ensures { length (jobs_of jobs.now) ≤ 64 }
{
    let _ = jobs;
}

fn are_wires(wires: &WireTable)
    ensures few { length (wires_of wires.now) ≤ 256 }
    ensures onward { list_all leads_on (wires_of wires.now) ≡ true }
    ensures four { list_all (λ n. nat_le n 4) (tally (wires_of wires.now)) ≡ true }
{
    let _ = wires;
}

#[test]
fn new_tables(rt: HostRuntime) -> Result<(), Fail> {
    let jobs = JobTable::new();
    let wires = WireTable::new();
    is_table(&jobs);
    are_wires(&wires);
    assert_eq!(rt; (jobs.len(), wires.len()), (0, 0));
    Ok(())
}

#[test]
fn reading_over(rt: HostRuntime) -> Result<(), Fail> {
    let heap = rt.alloc();
    let mut jobs = JobTable::new();
    let mut wires = WireTable::new();
    for (lines, wanted) in &SHEETS {
        let sheet = joined(JOBS, lines, heap)?;
        let told = read_over(&rt, sheet.as_str(), &mut jobs, &mut wires, heap)?;
        assert_eq!(rt; told.as_str(), *wanted, "{lines:?}");
    }
    let told = read_over(&rt, "", &mut jobs, &mut wires, heap)?;
    assert_eq!(rt; told.as_str(), "1 0 0 0\n");
    let told = read_over(&rt, "proc\n", &mut jobs, &mut wires, heap)?;
    assert_eq!(rt; told.as_str(), "2 1 0 0\n");
    Ok(())
}
