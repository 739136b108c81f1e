ghost use Rattle.std.specs.Prelude.{◌≡◌, length, Ok, nat_le};
ghost use Rattle.fixed.specs.Results.{and_then};
ghost use Rattle.spelling.specs.Lines.{split};
ghost use Rattle.spelling.specs.Texts.{all_of, cut};

use crate::reader::Reader;
use spelling::fault::LineFault;

// Whether a text has at most so many pieces. What stands behind one piece more is not read.
pub fn at_most(text: &[u8], separator: u8, most: usize) -> bool
    ensures { result ≡ nat_le (length (all_of (cut separator text.now))) most }
{
    text.split(|b| *b == separator).nth(most).is_none()
}

// That a line has so many fields, none of them empty.
// A loop and no chain: it ends at the first field that is empty or one too many, and a chain that also counts walks the line twice.
pub fn expect_fields(line: &[u8], wanted: usize) -> Result<(), LineFault>
    ensures { result ≡ and_then (split wanted line.now) (λ _. Ok tt) }
{
    let mut reader = Reader::new(line);
    let mut count = 0;
    while let Some(field) = reader.piece(b' ') {
        if field.is_empty() || count == wanted {
            return Err(LineFault::FieldCount(wanted));
        }
        count += 1;
    }
    if count < wanted {
        return Err(LineFault::FieldCount(wanted));
    }
    Ok(())
}
