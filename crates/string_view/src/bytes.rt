ghost use Rattle.std.specs.Prelude.{◌≡◌, ◌++◌, length, take, drop};
ghost use Rattle.std.specs.Iterator.{YieldsFirst, item_count};
ghost use Rattle.string_view.specs.Left.{left};

use crate::StringView;

// Gives the bytes of a storage in order, from a place on and up to another: with the end at hand, a loop over them
// compiles as one over a slice.
#[derive(Drop)]
pub struct Bytes<'a, S> {
    storage: &'a S,
    place: usize,
    end: usize,
}

impl<'a, S: StringView> Iterator for Bytes<'a, S> {
    type Item = u8;

    ghost next_gives = { YieldsFirst (left S.StringView) };

    ghost remaining = { item_count (left S.StringView) };

    fn next(&mut self) -> Option<u8> {
        if self.place >= self.end {
            return None;
        }
        let byte = self.storage.at(self.place)?;
        self.place += 1;
        Some(byte)
    }
}

// The bytes of a storage, from the first to the last.
pub fn bytes_of<S: StringView>(s: &S) -> Bytes<'_, S>
    ensures bytes { left S.StringView result ≡ S.seq s.now }
{
    bytes_from(s, 0)
}

// The bytes of a storage from a place on: none where the place is not below the length.
pub fn bytes_from<S: StringView>(s: &S, place: usize) -> Bytes<'_, S>
    ensures bytes { left S.StringView result ≡ drop place (S.seq s.now) }
{
    let end = s.len();
    Bytes {
        storage: s,
        place,
        end,
    }
}

// Writes the bytes of a storage into the first cells of the buffer, or as many as it has cells for.
pub fn copy_bytes<S: StringView>(s: &S, buffer: &mut [u8])
    ensures cells { buffer.new ≡ take (length buffer.old) (S.seq s.now) ++ drop (length (S.seq s.now)) buffer.old }
{
    let first = Bytes {
        storage: s,
        place: 0,
        end: s.len().min(buffer.len()),
    };
    // by place: after a `zip` with `iter_mut` a proof does not know the cells
    for (place, byte) in first.enumerate() {
        buffer[place] = byte;
    }
}
