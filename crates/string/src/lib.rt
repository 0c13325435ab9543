#![tactic(auto)]

ghost use Rattle.std.specs.Prelude.{◌≡◌, ◌-◌, not, [], ◌∷◌, ◌++◌, length, take, is_ok, if◌then◌else◌, filter, ◌==◌, unwrap_or, nat_le, nat_lt};
ghost use Rattle.string_view.specs.Characters.{is_character};
ghost use Rattle.string_view.specs.Checks.{first_fail, answered, first_bad, insertion, appending};
ghost use Rattle.string_view.specs.Places.{FirstPlace};
ghost use Rattle.string_view.specs.Refusals.{told};
ghost use Rattle.string_view.specs.Sequences.{inserted, removed, remove_fits, StandsAt};
ghost use Rattle.string_view.specs.Views.{Frame};

use string_view::StringView;
use string_view::error::StringModificationError;

pub mod pick;

use pick::Pick;

// Each call stands once, over any storage. What it asks and answers of the text, the storage's meaning turns
// into bytes; what the storage keeps through every call, each call keeps. The three clauses of a call that may refuse,
// answer, text and frame, are an equation of named words each; one word for all three would hide what a reader looks for.

// Removes all bytes.
pub fn clear<S: StringView>(s: &mut S)
    ensures text { S.seq s.new ≡ [] }
    ensures frame { Frame S.StringView s.old s.new }
{
    let len = s.len();
    s.take(0, len);
}

// Whether there is no byte.
pub fn is_empty<S: StringView>(s: &S) -> bool
    ensures answer { result ≡ (length (S.seq s.now) == 0) }
{
    s.len() == 0
}

// Whether no byte more fits.
pub fn is_full<S: StringView>(s: &S) -> bool
    ensures answer { result ≡ nat_le (S.room s.now) (length (S.seq s.now)) }
{
    s.len() >= s.capacity()
}

// Inserts a byte at a place.
pub fn insert<S: StringView>(s: &mut S, idx: usize, byte: u8) -> Result<(), StringModificationError>
    ensures answer { answered told result ≡ first_fail tt (insertion (S.room s.old) (S.seq s.old) idx (byte ∷ [])) }
    ensures text { S.seq s.new ≡ (if is_ok result then inserted idx (byte ∷ []) (S.seq s.old) else S.seq s.old) }
    ensures frame { Frame S.StringView s.old s.new }
{
    insert_bytes(s, idx, &[byte])
}

// The place of the first byte that is no character, if there is one.
// The loop goes by an index: that form is fixed (docs/DECISIONS.md, "Forms that are fixed").
pub fn first_bad(bytes: &[u8]) -> Option<usize>
    ensures place { unwrap_or result (length bytes.now) ≡ first_bad bytes.now }
    ensures first { FirstPlace (λ b. not (is_character b)) bytes.now result }
{
    for i in 0..bytes.len() {
        let b = bytes[i];
        if b == 0 || b > 127 {
            return Some(i);
        }
    }
    None
}

// Inserts bytes at a place.
pub fn insert_bytes<S: StringView>(
    s: &mut S,
    idx: usize,
    bytes: &[u8],
) -> Result<(), StringModificationError>
    ensures answer { answered told result ≡ first_fail tt (insertion (S.room s.old) (S.seq s.old) idx bytes.now) }
    ensures text { S.seq s.new ≡ (if is_ok result then inserted idx bytes.now (S.seq s.old) else S.seq s.old) }
    ensures frame { Frame S.StringView s.old s.new }
{
    let len = s.len();
    if idx > len {
        return Err(StringModificationError::PositionOutOfRange);
    }
    if len + bytes.len() > s.capacity() {
        return Err(StringModificationError::InsertWouldExceedCapacity);
    }
    if let Some(place) = first_bad(bytes) {
        return Err(StringModificationError::InvalidCharacter { place });
    }
    s.put(idx, bytes);
    Ok(())
}

// Removes the last byte and answers it; none, if there is none.
pub fn pop<S: StringView>(s: &mut S) -> Option<u8>
    ensures answer { StandsAt (S.seq s.old) (length (S.seq s.old) - 1) result }
    ensures text { S.seq s.new ≡ take (length (S.seq s.old) - 1) (S.seq s.old) }
    ensures frame { Frame S.StringView s.old s.new }
{
    match s.len() {
        0 => None,
        len => remove(s, len - 1),
    }
}

// Inserts a byte at the end.
pub fn push<S: StringView>(s: &mut S, byte: u8) -> Result<(), StringModificationError>
    ensures answer { answered told result ≡ first_fail tt (appending (S.room s.old) (S.seq s.old) (byte ∷ [])) }
    ensures text { S.seq s.new ≡ (if is_ok result then S.seq s.old ++ (byte ∷ []) else S.seq s.old) }
    ensures frame { Frame S.StringView s.old s.new }
{
    push_bytes(s, &[byte])
}

// Inserts bytes at the end.
pub fn push_bytes<S: StringView>(s: &mut S, bytes: &[u8]) -> Result<(), StringModificationError>
    ensures answer { answered told result ≡ first_fail tt (appending (S.room s.old) (S.seq s.old) bytes.now) }
    ensures text { S.seq s.new ≡ (if is_ok result then S.seq s.old ++ bytes.now else S.seq s.old) }
    ensures frame { Frame S.StringView s.old s.new }
{
    let len = s.len();
    insert_bytes(s, len, bytes)
}

// Removes the byte at a place and answers it; none, if none stands there.
pub fn remove<S: StringView>(s: &mut S, idx: usize) -> Option<u8>
    ensures answer { StandsAt (S.seq s.old) idx result }
    ensures text { S.seq s.new ≡ (if nat_lt idx (length (S.seq s.old)) then removed idx 1 (S.seq s.old) else S.seq s.old) }
    ensures frame { Frame S.StringView s.old s.new }
{
    let byte = s.at(idx)?;
    s.take(idx, 1);
    Some(byte)
}

// Removes `len` bytes at a place, if so many stand there.
pub fn remove_range<S: StringView>(s: &mut S, idx: usize, len: usize) -> bool
    ensures answer { result ≡ remove_fits (S.seq s.old) idx len }
    ensures text { S.seq s.new ≡ (if result then removed idx len (S.seq s.old) else S.seq s.old) }
    ensures frame { Frame S.StringView s.old s.new }
{
    s.take(idx, len)
}

// Removes the bytes for which the pick says yes.
pub fn retain<S: StringView, P: Pick>(s: &mut S, pick: &P)
    ensures text { S.seq s.new ≡ filter (λ b. not (P.picked pick.now b)) (S.seq s.old) }
    ensures frame { Frame S.StringView s.old s.new }
{
    for place in (0..s.len()).rev() {
        if s.at(place).is_some_and(|byte| pick.picks(byte)) {
            s.take(place, 1);
        }
    }
}

// Cuts the text to a length, if that is shorter.
pub fn truncate<S: StringView>(s: &mut S, new_len: usize)
    ensures text { S.seq s.new ≡ take new_len (S.seq s.old) }
    ensures frame { Frame S.StringView s.old s.new }
{
    let len = s.len();
    if new_len < len {
        s.take(new_len, len - new_len);
    }
}
