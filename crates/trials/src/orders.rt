// The names in each of their 24 orders: where the fields stand likewise, the same is read.
use crate::support::held;
use fixed::distinct::all_different;
use job::table::JobTable;
use sheet::read::read;
use std::alloc::{AllocError, Global};
use std::process::Abort;
use std::test::Fail;
use wiring::table::WireTable;

static LINES: [[&str; 4]; 4] = [
    ["proc", "arg", "urg", "points"],
    ["S", "30", "7", "0,1"],
    ["T", "4294967295", "0", "-"],
    ["S", "3", "1", "8"],
];

// What the tables hold then.
const HELD: &str = "S 30 7 [0, 1]\nT 4294967295 0 []\nS 3 1 [8]\n5 6 9\n";

// A line of the fields in this order.
fn line(fields: &[&str; 4], order: &[u8], heap: Global) -> Result<String, AllocError> {
    let mut text = String::new(heap);
    for place in order {
        if !text.is_empty() {
            text.push_str(" ")?;
        }
        if let Some(field) = fields.get(usize::from(*place)) {
            text.push_str(field)?;
        }
    }
    text.push_str("\n")?;
    Ok(text)
}

// The sheet with the fields of each line in this order.
fn sheet_in(order: &[u8], heap: Global) -> Result<String, AllocError> {
    let mut text = String::new(heap);
    for fields in &LINES {
        let line = line(fields, order, heap)?;
        text.push_str(line.as_str())?;
    }
    text.push_str("\nfrom to delay\n5 6 9\n")?;
    Ok(text)
}

fn reads_the_same(rt: &impl Abort, order: &[u8], heap: Global) -> Result<(), Fail> {
    let sheet = sheet_in(order, heap)?;
    let mut jobs = JobTable::new();
    let mut wires = WireTable::new();
    read(sheet.as_bytes(), &mut jobs, &mut wires)?;
    let text = held(&jobs, &wires, heap)?;
    assert_eq!(rt; text.as_str(), HELD, "{}", sheet.as_str());
    Ok(())
}

#[test]
fn every_order(rt: HostRuntime) -> Result<(), Fail> {
    let mut orders = 0u32;
    for n in 0..=255u8 {
        let order = [n & 3, (n >> 2) & 3, (n >> 4) & 3, n >> 6];
        if all_different(&order) {
            orders = orders.saturating_add(1);
            reads_the_same(&rt, &order, rt.alloc())?;
        }
    }
    assert_eq!(rt; orders, 24);
    Ok(())
}
