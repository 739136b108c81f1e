ghost use Rattle.std.specs.Prelude.{◌≡◌};
ghost use Rattle.spelling.specs.Fields.{known, letter as letter_of, number as number_of};
ghost use Rattle.fields.specs.Reading.{pieces_of, head_of, PastField};
ghost use Rattle.fields.specs.Fields.{Reads};

use crate::number::{byte, number};
use crate::reader::Reader;
use job::fault::FieldFault;
use spelling::column::Column;

// A field of a job line: a letter, a number, or a list with its place in the line.
#[derive(Clone, Copy)]
pub enum Field<'a> {
    Letter(char),
    Number(u32),
    List(&'a [u8], usize),
}

// The letters of the procedures that a sheet may name.
fn known_letter(c: char) -> Result<char, FieldFault>
    ensures { result ≡ known c }
{
    match c {
        'T' | 'S' => Ok(c),
        _ => Err(FieldFault::UnknownLetter),
    }
}

// A letter is one byte.
fn letter(text: &[u8]) -> Result<char, FieldFault>
    ensures { result ≡ letter_of text.now }
{
    match text {
        [b] => known_letter(char::from(*b)),
        _ => Err(FieldFault::UnknownLetter),
    }
}

// Each of these says in `past` how it leaves the reader: a step is no fact on one reader, so no type can keep it.
impl<'a> Reader<'a> {
    // The next field between spaces; where none is left, an empty one.
    fn field_text(&mut self) -> &'a [u8]
        ensures text { result.now ≡ head_of (pieces_of 32 self.old) }
        ensures past { PastField self.old self.new }
    {
        self.piece(b' ').unwrap_or_default()
    }

    // The next field, as one of this column.
    pub fn field(&mut self, column: Column) -> Result<Field<'a>, FieldFault>
        ensures reads { Reads column (head_of (pieces_of 32 self.old)) self.old.place result }
        ensures past { PastField self.old self.new }
    {
        let offset = self.place();
        let text = self.field_text();
        match column {
            Column::Proc => Ok(Field::Letter(letter(text)?)),
            Column::Arg => Ok(Field::Number(number(text, u32::MAX)?)),
            Column::Urg => Ok(Field::Number(number(text, 9)?)),
            Column::Points => Ok(Field::List(text, offset)),
        }
    }

    // The next field, as a number of at most `top`.
    pub fn number(&mut self, top: u32) -> Result<u32, FieldFault>
        ensures reads { result ≡ number_of top (head_of (pieces_of 32 self.old)) }
        ensures past { PastField self.old self.new }
    {
        number(self.field_text(), top)
    }

    // The next field, as a number of at most 255.
    pub fn byte(&mut self) -> Result<u8, FieldFault>
        ensures reads { result ≡ number_of 255 (head_of (pieces_of 32 self.old)) }
        ensures past { PastField self.old self.new }
    {
        byte(self.field_text())
    }
}
