// Checks the stored sheets and prints what is said of each, to be compared with the known answers.
#![tactic(auto)]

use anyhow::Context;
use listing::check::check;
use listing::text::{refusal_text, report_text};
use std::alloc::Global;
use std::fs;

// The stored sheets are 000.sheet, 001.sheet and so on.
const SHEETS: u32 = 80;

// What is said of the bytes of a sheet.
fn answer(bytes: &[u8], heap: Global) -> anyhow::Result<String> {
    match check(bytes, heap) {
        Ok(report) => Ok(report_text(&report, heap)?),
        Err(fault) => {
            let refusal = fault.refusal().context("no memory is left for the answer")?;
            Ok(refusal_text(refusal, heap)?)
        }
    }
}

// Prints the name of a sheet, and below it what is said of the sheet.
fn show(rt: &HostRuntime, number: u32) -> anyhow::Result<()> {
    let name = format!(in rt.alloc(); "{number:03}.sheet")?;
    let bytes = fs::read(rt, name.as_str())?;
    println!(rt; "== {name}")?;
    rt.print(answer(bytes.as_slice(), rt.alloc())?)?;
    Ok(())
}

fn run(rt: &HostRuntime) -> anyhow::Result<()> {
    for number in 0..SHEETS {
        show(rt, number)?;
    }
    Ok(())
}

fn main(rt: HostRuntime) -> anyhow::Result<()> {
    run(&rt)
}
