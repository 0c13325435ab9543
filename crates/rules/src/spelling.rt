ghost use Rattle.std.specs.Prelude.{◌≡◌, ℕ, ◌≤◌, List, length, Option};
ghost use Rattle.std.specs.Iterator.{YieldsFirst, item_count};
ghost use Rattle.string_bytes.specs.Buffers.{AnswersLength, FillsFront};
ghost use Rattle.rules.specs.Spellings.{spelling};

use string_view::error::BufferTooShort;

// How a normal form is written byte by byte: what stands for the first byte of what is left of a text, if anything
// does. It may look at the bytes behind.
pub trait Spelling {
    ghost spelt: { Self → List ℕ → Option ℕ };

    fn spell(&self, rest: &[u8]) -> Option<u8>
        ensures answer { result ≡ spelt self.now rest.now };
}

// The spelling of what is left of a text, byte by byte.
#[derive(Drop)]
struct Spelt<'a, P> {
    how: &'a P,
    rest: &'a [u8],
}

impl<'a, P: Spelling> Iterator for Spelt<'a, P> {
    type Item = u8;

    ghost next_gives = { YieldsFirst (λ s. spelling (P.spelt s.how.now) s.rest.now) };

    ghost remaining = { item_count (λ s. spelling (P.spelt s.how.now) s.rest.now) };

    fn next(&mut self) -> Option<u8> {
        while let [_, behind @ ..] = self.rest {
            let byte = self.how.spell(self.rest);
            self.rest = behind;
            if byte.is_some() {
                return byte;
            }
        }
        None
    }
}

// How many bytes the spelling of a text has.
#[tactic(auto, using(crate::proofs::Spellings::spelling_no_longer))]
pub fn spelling_len<P: Spelling>(how: &P, string: &[u8]) -> usize
    ensures answer { result ≡ length (spelling (P.spelt how.now) string.now) }
    ensures bound { result ≤ length string.now }
{
    Spelt { how, rest: string }.count()
}

// Writes the spelling of a text into the first cells of the buffer, and answers how many bytes it is.
pub fn write_spelling<P: Spelling>(
    how: &P,
    string: &[u8],
    buffer: &mut [u8],
) -> Result<usize, BufferTooShort>
    ensures answer { AnswersLength (spelling (P.spelt how.now) string.now) buffer.old result }
    ensures cells { FillsFront (spelling (P.spelt how.now) string.now) buffer.old buffer.new result }
{
    let len = spelling_len(how, string);
    if len > buffer.len() {
        return Err(BufferTooShort);
    }
    // by place: after a `zip` with `iter_mut` a proof does not know the cells
    for (place, byte) in (Spelt { how, rest: string }).enumerate() {
        buffer[place] = byte;
    }
    Ok(len)
}

// Writes the bytes into the first cells of the buffer, and answers how many they are.
pub fn write_bytes(bytes: &[u8], buffer: &mut [u8]) -> Result<usize, BufferTooShort>
    ensures answer { AnswersLength bytes.now buffer.old result }
    ensures cells { FillsFront bytes.now buffer.old buffer.new result }
{
    let (cells, _) = buffer
        .split_at_mut_checked(bytes.len())
        .ok_or(BufferTooShort)?;
    cells.copy_from_slice(bytes);
    Ok(bytes.len())
}
