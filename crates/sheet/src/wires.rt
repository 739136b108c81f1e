ghost use Rattle.std.specs.Prelude.{◌≡◌, length};
ghost use Rattle.spelling.specs.Lines.{wire_fields, wire_line};
ghost use Rattle.spelling.specs.Texts.{all_of, cut};
ghost use Rattle.sheet.specs.Tables.{Takes};
ghost use Rattle.wiring.specs.Wiring.{wires_of};

use fields::place::at;
use fields::reader::Reader;
use fields::shape::expect_fields;
use spelling::fault::LineFault;
use wiring::table::WireTable;
use wiring::wire::Wire;

// The three fields of a wire line. The caller has counted them;
// a type that says so would be made for this one call.
fn three_fields(line: &[u8]) -> Result<Wire, LineFault>
    requires { length (all_of (cut 32 line.now)) ≡ 3 }
    ensures { result ≡ wire_fields (all_of (cut 32 line.now)) }
{
    let mut reader = Reader::new(line);
    let from = at(1, reader.byte())?;
    let to = at(2, reader.byte())?;
    let delay = at(3, reader.number(u32::MAX))?;
    Ok(Wire { from, to, delay })
}

// Takes the wire of a line into the table.
pub(crate) fn take_wire(line: &[u8], wires: &mut WireTable) -> Result<(), LineFault>
    ensures { Takes (wire_line (wires_of wires.old) line.now) (wires_of wires.old) result (wires_of wires.new) }
{
    if wires.is_full() {
        return Err(LineFault::TooManyWires);
    }
    expect_fields(line, 3)?;
    let wire = three_fields(line)?;
    wires.push(wire)?;
    Ok(())
}
