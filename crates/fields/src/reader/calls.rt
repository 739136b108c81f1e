ghost use Rattle.std.specs.Prelude.{◌≡◌, ◌<◌, true, false};
ghost use Rattle.fields.specs.Reading.{Ends, rest_of, pieces_of, NextLine, NextPiece, Passes, Walks};

use crate::reader::Reader;

// Where the first separator is.
fn find(bytes: &[u8], separator: u8) -> Option<usize>
    ensures { Ends separator bytes.now result }
{
    bytes.iter().position(|b| *b == separator)
}

impl<'a> Reader<'a> {
    pub fn new(bytes: &'a [u8]) -> Reader<'a>
        ensures rest { rest_of result ≡ bytes.now }
        ensures whole { result.bytes.now ≡ bytes.now }
        ensures ready { result.done ≡ false }
    {
        Reader {
            bytes,
            place: 0,
            done: false,
        }
    }

    // Where the next piece begins, counted from the first byte.
    pub fn place(&self) -> usize
        ensures { result ≡ self.now.place }
    {
        self.place
    }

    // What is left.
    pub fn rest(&self) -> &'a [u8]
        ensures { result.now ≡ rest_of self.now }
    {
        &self.bytes[self.place..]
    }

    // The next line that has its end.
    pub fn line(&mut self) -> Option<&'a [u8]>
        ensures next { NextLine (rest_of self.old) result (rest_of self.new) }
        ensures kept { Passes self.old self.new }
    {
        let rest = self.rest();
        let end = find(rest, b'\n')?;
        self.place += end + 1;
        Some(&rest[..end])
    }

    // The next piece between separators, or what is left behind the last of them; then nothing more.
    pub fn piece(&mut self, separator: u8) -> Option<&'a [u8]>
        ensures next { NextPiece (pieces_of separator self.old) result (pieces_of separator self.new) }
        ensures kept { Walks self.old self.new }
    {
        if self.done {
            return None;
        }
        let rest = self.rest();
        let Some(end) = find(rest, separator) else {
            self.done = true;
            return Some(rest);
        };
        self.place += end + 1;
        Some(&rest[..end])
    }
}
