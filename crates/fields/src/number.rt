ghost use Rattle.std.specs.Prelude.{◌≡◌, ◌^◌, min, true, false, MatchOption};
ghost use Rattle.std.specs.Str.{all_ascii_digits};
ghost use Rattle.std.specs.Str.Parse.{digits_value};
ghost use Rattle.spelling.specs.Fields.{number as number_of, plain};
ghost use Rattle.fields.specs.Fields.{Written};

use job::fault::FieldFault;

// Whether a text has no leading zero: it is not empty, and begins with 0 only as a single digit.
fn is_plain(text: &[u8]) -> bool
    ensures { result ≡ plain text.now }
{
    match text {
        [] => false,
        [_] => true,
        [first, ..] => *first != b'0',
    }
}

// What a text of digits writes, or some number beyond 32 bits where that is beyond them: so no text is too long.
// A loop and no chain: each byte is looked at once, and the first that is no digit ends the reading.
fn value(text: &[u8]) -> Option<u64>
    ensures { MatchOption result (all_ascii_digits text.now ≡ false) (λ n. (all_ascii_digits text.now ≡ true) × (min n (2 ^ 32) ≡ min (digits_value 10 text.now) (2 ^ 32))) }
{
    let mut n: u64 = 0;
    for b in text {
        if !b.is_ascii_digit() {
            return None;
        }
        // once beyond 32 bits it stays there
        if n <= u64::from(u32::MAX) {
            n = n * 10 + u64::from(*b - b'0');
        }
    }
    Some(n)
}

// By its value and its shape alone; that this is what one writes for it is said by `number`.
fn parse(text: &[u8], top: u32) -> Result<u32, FieldFault>
    ensures { result ≡ number_of top text.now }
{
    if !is_plain(text) {
        return Err(FieldFault::NoNumber);
    }
    let n = value(text).ok_or(FieldFault::NoNumber)?;
    match u32::try_from(n) {
        Ok(n) if n <= top => Ok(n),
        _ => Err(FieldFault::AboveRange(top)),
    }
}

// A number of at most `top`, in base-ten digits without leading zeros: exactly what one writes for it is read.
pub fn number(text: &[u8], top: u32) -> Result<u32, FieldFault>
    ensures value { result ≡ number_of top text.now }
    ensures written { Written top text.now result }
{
    parse(text, top)
}

// A number of at most 255.
pub fn byte(text: &[u8]) -> Result<u8, FieldFault>
    ensures { result ≡ number_of 255 text.now }
{
    let n = number(text, 255)?;
    // at most 255, so there is a value
    Ok(u8::try_from(n).unwrap())
}
