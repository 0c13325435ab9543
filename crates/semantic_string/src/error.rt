ghost use Rattle.std.specs.Prelude.{◌≡◌};
ghost use Rattle.semantic_string.specs.Refusals.{semantic_told, converted, passed_on};

use string_view::error::{Numbered, StringModificationError};

// Why a checked text is not set up, or an edit of it is refused.
#[derive(Clone, Copy, PartialEq, Eq, Debug)]
pub enum SemanticStringError {
    // The text would not be valid under its rule.
    InvalidContent,
    // The plain string refuses the bytes, for its capacity or for a byte; its refusal lies inside.
    ExceedsMaximumLength(StringModificationError),
    // The place lies beyond the length.
    PositionOutOfRange,
}

impl Numbered for SemanticStringError {
    ghost refusal = { semantic_told };

    fn number(&self) -> u8 {
        match self {
            SemanticStringError::InvalidContent => 4,
            SemanticStringError::ExceedsMaximumLength(_) => 5,
            SemanticStringError::PositionOutOfRange => 3,
        }
    }
}

// As the Rust converts: too long is told as length, and a byte that is no character as content.
impl From<StringModificationError> for SemanticStringError {
    ghost from_gives = { λ e r. r ≡ converted e };

    fn from(value: StringModificationError) -> SemanticStringError {
        match value {
            StringModificationError::InsertWouldExceedCapacity => {
                SemanticStringError::ExceedsMaximumLength(value)
            }
            StringModificationError::InvalidCharacter { .. } => SemanticStringError::InvalidContent,
            StringModificationError::PositionOutOfRange => SemanticStringError::PositionOutOfRange,
        }
    }
}

// What a text answers where the plain string refuses the bytes. `From` is taken: it is the Rust's, which drops the refusal.
pub(crate) fn passed_on(error: StringModificationError) -> SemanticStringError
    ensures { result ≡ passed_on error }
{
    match error {
        StringModificationError::PositionOutOfRange => SemanticStringError::PositionOutOfRange,
        _ => SemanticStringError::ExceedsMaximumLength(error),
    }
}
