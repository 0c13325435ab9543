ghost use Rattle.std.specs.Prelude.{◌<◌};

use std::alloc::{AllocError, Global};
use std::fmt;
use string_view::StringView;
use string_view::bytes::bytes_of;

// A line has a word, up to two numbers, and up to one text in quotes, in which \xNN is the byte of that code.

// The value of a small hex digit, and 0 of any other byte; `to_digit` would take capitals.
fn digit(b: u8) -> u8
    ensures { result < 16 }
{
    match b {
        b'0'..=b'9' => b - b'0',
        b'a'..=b'f' => b - b'a' + 10,
        _ => 0,
    }
}

// The bytes of a text as it stands in a line.
pub fn decoded(heap: Global, text: &str) -> Result<Vec<u8>, AllocError> {
    let mut bytes = Vec::new(heap);
    let mut rest = text.as_bytes();
    loop {
        let (byte, behind) = match rest {
            [b'\\', b'x', high, low, behind @ ..] => (digit(*high) * 16 + digit(*low), behind),
            [byte, behind @ ..] => (*byte, behind),
            [] => return Ok(bytes),
        };
        bytes.push(byte)?;
        rest = behind;
    }
}

// The text of a storage as it would stand in a line. The library's `escape_ascii` has escapes that a line has not.
#[derive(Drop)]
pub struct Encoded<'a, S>(pub &'a S);

impl<S: StringView> fmt::Display for Encoded<'_, S> {
    fn fmt<W: fmt::Write>(&self, f: &mut fmt::Formatter<W>) -> fmt::Result {
        for byte in bytes_of(self.0) {
            match byte {
                b' '..=b'~' => f.write_char(char::from(byte))?,
                _ => write!(f, "\\x{byte:02x}")?,
            }
        }
        Ok(())
    }
}

// A number that stands there, the largest one, or 0 where none does.
pub fn number(word: Option<&str>) -> usize {
    match word {
        None => 0,
        Some("max") => usize::MAX,
        Some(digits) => digits.parse().unwrap_or(0),
    }
}
