#![tactic(auto)]

ghost use Rattle.std.specs.Prelude.{◌≡◌, [], ◌∷◌, ◌++◌, take, is_ok, if◌then◌else◌};
ghost use Rattle.string_view.specs.Checks.{first_fail, answered, characters, loading};
ghost use Rattle.string_view.specs.Refusals.{told};
ghost use Rattle.string_view.specs.Views.{Frame};
ghost use Rattle.string_bytes.specs.Buffers.{AnswersLength, FillsFront};
ghost use Rattle.string_bytes.specs.Terminated.{terminated};

use string::{clear, first_bad};
use string_view::StringView;
use string_view::bytes::copy_bytes;
use string_view::error::{BufferTooShort, StringModificationError};

pub mod utils;

use utils::strnlen;

// Writes the text into the first cells of the buffer, and answers how many bytes it is.
pub fn as_bytes<S: StringView>(s: &S, buffer: &mut [u8]) -> Result<usize, BufferTooShort>
    ensures answer { AnswersLength (S.seq s.now) buffer.old result }
    ensures cells { FillsFront (S.seq s.now) buffer.old buffer.new result }
{
    let len = s.len();
    if len > buffer.len() {
        return Err(BufferTooShort);
    }
    copy_bytes(s, buffer);
    Ok(len)
}

// Writes the text and a zero behind it into the first cells of the buffer, and answers how many bytes these are.
pub fn as_bytes_with_nul<S: StringView>(s: &S, buffer: &mut [u8]) -> Result<usize, BufferTooShort>
    ensures answer { AnswersLength (S.seq s.now ++ (0 ∷ [])) buffer.old result }
    ensures cells { FillsFront (S.seq s.now ++ (0 ∷ [])) buffer.old buffer.new result }
{
    let len = s.len();
    if len >= buffer.len() {
        return Err(BufferTooShort);
    }
    copy_bytes(s, buffer);
    buffer[len] = 0;
    Ok(len + 1)
}

// Makes the bytes the text.
pub fn from_bytes<S: StringView>(s: &mut S, bytes: &[u8]) -> Result<(), StringModificationError>
    ensures answer { answered told result ≡ first_fail tt (loading (S.room s.old) bytes.now) }
    ensures text { S.seq s.new ≡ (if is_ok result then bytes.now else S.seq s.old) }
    ensures frame { Frame S.StringView s.old s.new }
{
    if bytes.len() > s.capacity() {
        return Err(StringModificationError::InsertWouldExceedCapacity);
    }
    if let Some(place) = first_bad(bytes) {
        return Err(StringModificationError::InvalidCharacter { place });
    }
    clear(s);
    s.put(0, bytes);
    Ok(())
}

// Makes the bytes the text, or as many of the first ones as the capacity allows.
pub fn from_bytes_truncated<S: StringView>(
    s: &mut S,
    bytes: &[u8],
) -> Result<(), StringModificationError>
    ensures answer { answered told result ≡ first_fail tt (characters (take (S.room s.old) bytes.now) ∷ []) }
    ensures text { S.seq s.new ≡ (if is_ok result then take (S.room s.old) bytes.now else S.seq s.old) }
    ensures frame { Frame S.StringView s.old s.new }
{
    let end = bytes.len().min(s.capacity());
    from_bytes(s, &bytes[..end])
}

// Makes the bytes before a slot's first zero the text. Of a slot longer than that, the first capacity + 1 bytes
// are looked at, and all of them are taken where none is zero.
pub fn from_c_str<S: StringView>(s: &mut S, slot: &[u8]) -> Result<(), StringModificationError>
    ensures answer { answered told result ≡ first_fail tt (loading (S.room s.old) (terminated (S.room s.old) slot.now)) }
    ensures text { S.seq s.new ≡ (if is_ok result then terminated (S.room s.old) slot.now else S.seq s.old) }
    ensures frame { Frame S.StringView s.old s.new }
{
    let end = strnlen(slot, s.capacity() + 1);
    from_bytes(s, &slot[..end])
}
