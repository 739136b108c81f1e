ghost use Rattle.std.specs.Prelude.{◌≡◌, []};
ghost use Rattle.std.specs.Option.{unwrap_or};
ghost use Rattle.fixed.specs.Results.{given};
ghost use Rattle.spelling.specs.declared.fault.LineFault.TheVariants.{Unended};
ghost use Rattle.spelling.specs.declared.fault.SheetFault.TheVariants.{AtLine};
ghost use Rattle.spelling.specs.Sheet.{read as read_of, jobs_from, wires_part, wires_from};
ghost use Rattle.spelling.specs.Texts.{cut, empty};
ghost use Rattle.fields.specs.Order.{columns_of};
ghost use Rattle.fields.specs.Reading.{rest_of};
ghost use Rattle.sheet.specs.Tables.{Leaves, Follows, Read, Spells, Faults};
ghost use Rattle.job.specs.Records.{jobs_of};
ghost use Rattle.wiring.specs.Wiring.{wires_of};

use crate::jobs::take_job;
use crate::wires::take_wire;
use fields::names::names;
use fields::order::ColumnOrder;
use fields::place::at;
use fields::reader::Reader;
use job::table::JobTable;
use spelling::fault::{LineFault, SheetFault};
use wiring::table::WireTable;

// That nothing is left behind the last line that has its end. A line that is left has none; where the table is full, it
// is one too many.
fn at_end(reader: &Reader<'_>, line: usize, too_many: Option<LineFault>) -> Result<(), SheetFault>
    ensures { result ≡ given (empty (rest_of reader.now)) (AtLine line (unwrap_or too_many Unended)) (Ok tt) }
{
    if reader.rest().is_empty() {
        return Ok(());
    }
    let fault = too_many.unwrap_or(LineFault::Unended);
    Err(SheetFault::AtLine(line, fault))
}

// The wires, up to the end of the sheet.
fn wire_lines(
    reader: &mut Reader<'_>,
    jobs: &JobTable,
    wires: &mut WireTable,
) -> Result<(), SheetFault>
    ensures { Leaves (wires_from (jobs_of jobs.now) (wires_of wires.old) (cut 10 (rest_of reader.old))) result (jobs_of jobs.now) (wires_of wires.new) }
{
    // above the wires stand the names, the jobs, an empty line and the wires' names; lines count from 1
    let above = 4 + jobs.len();
    while let Some(line) = reader.line() {
        at(above + wires.len(), take_wire(line, wires))?;
    }
    let too_many = wires.is_full().then_some(LineFault::TooManyWires);
    at_end(reader, above + wires.len(), too_many)
}

// The wires' part, behind the empty line: its names, and then the wires.
#[tactic(auto, using(fields::proofs::Steps::same_eq))]
fn wire_part(
    reader: &mut Reader<'_>,
    jobs: &JobTable,
    wires: &mut WireTable,
) -> Result<(), SheetFault>
    requires { wires_of wires.old ≡ [] }
    ensures { Leaves (wires_part (jobs_of jobs.now) (cut 10 (rest_of reader.old))) result (jobs_of jobs.now) (wires_of wires.new) }
{
    if reader.line() != Some(b"from to delay".as_slice()) {
        return Err(SheetFault::AtLine(3 + jobs.len(), LineFault::WireNames));
    }
    wire_lines(reader, jobs, wires)
}

// The jobs, up to the empty line before the wires' part, or up to the end of the sheet; whether the wires' part follows.
fn job_lines(
    reader: &mut Reader<'_>,
    order: &ColumnOrder,
    jobs: &mut JobTable,
) -> Result<bool, SheetFault>
    ensures { Follows (jobs_from (columns_of order.now) (jobs_of jobs.old) (cut 10 (rest_of reader.old))) result (jobs_of jobs.new) (cut 10 (rest_of reader.new)) }
{
    while let Some(line) = reader.line() {
        if line.is_empty() {
            return Ok(true);
        }
        at(2 + jobs.len(), take_job(order, line, jobs))?;
    }
    let too_many = jobs.is_full().then_some(LineFault::TooManyJobs);
    at_end(reader, 2 + jobs.len(), too_many)?;
    Ok(false)
}

// The lines of a sheet, into the tables, whatever they held.
fn read_lines(sheet: &[u8], jobs: &mut JobTable, wires: &mut WireTable) -> Result<(), SheetFault>
    ensures { Leaves (read_of sheet.now) result (jobs_of jobs.new) (wires_of wires.new) }
{
    jobs.clear();
    wires.clear();
    if sheet.is_empty() {
        return Err(SheetFault::NoBytes);
    }
    let mut reader = Reader::new(sheet);
    let Some(line) = reader.line() else {
        return Err(SheetFault::AtLine(1, LineFault::JobNames));
    };
    let order = at(1, names(line))?;
    if job_lines(&mut reader, &order, jobs)? {
        return wire_part(&mut reader, jobs, wires);
    }
    Ok(())
}

// Reads a sheet into the tables, whatever they held. It is accepted exactly if it spells tables within the limits;
// a refused one leaves both tables empty, and the answer is its first fault.
pub fn read(sheet: &[u8], jobs: &mut JobTable, wires: &mut WireTable) -> Result<(), SheetFault>
    ensures answer { Read sheet.now result (jobs_of jobs.new) (wires_of wires.new) }
    ensures spelled { Spells sheet.now result (jobs_of jobs.new) (wires_of wires.new) }
    ensures first { Faults sheet.now result }
{
    if let Err(fault) = read_lines(sheet, jobs, wires) {
        jobs.clear();
        wires.clear();
        return Err(fault);
    }
    Ok(())
}
