ghost use Rattle.std.specs.Prelude.{◌≡◌};
ghost use Rattle.string_view.specs.Refusals.{Refusal, told, region_told, buffer_told};

// Why an insertion into a string, or the loading of one, is refused.
#[derive(Clone, Copy, PartialEq, Eq, Debug)]
pub enum StringModificationError {
    // An offered byte is no character. `place` is that of the first such byte among those offered.
    InvalidCharacter { place: usize },
    // The bytes would not fit the capacity.
    InsertWouldExceedCapacity,
    // The place lies beyond the length.
    PositionOutOfRange,
}

// A region has fewer cells than the announced string needs.
#[derive(Clone, Copy, PartialEq, Eq, Debug)]
pub struct RegionTooShort;

// A buffer has fewer cells than there are bytes to write.
#[derive(Clone, Copy, PartialEq, Eq, Debug)]
pub struct BufferTooShort;

// A refusal that crews and files know by a number.
pub trait Numbered {
    // the refusal by its number, and the values that it carries
    ghost refusal: { Self → Refusal };

    fn number(&self) -> u8
        ensures answer { result ≡ (refusal self.now).number };
}

impl Numbered for StringModificationError {
    ghost refusal = { told };

    fn number(&self) -> u8 {
        match self {
            StringModificationError::InvalidCharacter { .. } => 2,
            StringModificationError::InsertWouldExceedCapacity => 1,
            StringModificationError::PositionOutOfRange => 3,
        }
    }
}

impl Numbered for RegionTooShort {
    ghost refusal = { region_told };

    fn number(&self) -> u8 {
        8
    }
}

impl Numbered for BufferTooShort {
    ghost refusal = { buffer_told };

    fn number(&self) -> u8 {
        9
    }
}
