ghost use Rattle.std.specs.Prelude.{◌≡◌, Ok};
ghost use Rattle.string_cases.specs.declared.answer.Answer.TheVariants.{Truth, Byte, Place, Number, Rank, Outcome};

use std::cmp::Ordering;
use std::fmt;
use string_view::error::{Numbered, StringModificationError};

// What a call answers.
#[derive(Clone, Copy, PartialEq, Eq, Debug)]
pub enum Answer {
    Truth(bool),
    Byte(Option<u8>),
    Place(Option<usize>),
    Number(usize),
    Rank(Ordering),
    Outcome(Result<(), StringModificationError>),
}

// A call that has nothing to answer is done.
impl From<()> for Answer {
    ghost from_gives = { λ x a. a ≡ Outcome (Ok x) };

    fn from(done: ()) -> Answer {
        Answer::Outcome(Ok(done))
    }
}

impl From<bool> for Answer {
    ghost from_gives = { λ x a. a ≡ Truth x };

    fn from(holds: bool) -> Answer {
        Answer::Truth(holds)
    }
}

impl From<Option<u8>> for Answer {
    ghost from_gives = { λ x a. a ≡ Byte x };

    fn from(byte: Option<u8>) -> Answer {
        Answer::Byte(byte)
    }
}

impl From<Option<usize>> for Answer {
    ghost from_gives = { λ x a. a ≡ Place x };

    fn from(place: Option<usize>) -> Answer {
        Answer::Place(place)
    }
}

impl From<usize> for Answer {
    ghost from_gives = { λ x a. a ≡ Number x };

    fn from(number: usize) -> Answer {
        Answer::Number(number)
    }
}

impl From<Ordering> for Answer {
    ghost from_gives = { λ x a. a ≡ Rank x };

    fn from(order: Ordering) -> Answer {
        Answer::Rank(order)
    }
}

impl From<Result<(), StringModificationError>> for Answer {
    ghost from_gives = { λ x a. a ≡ Outcome x };

    fn from(outcome: Result<(), StringModificationError>) -> Answer {
        Answer::Outcome(outcome)
    }
}

impl fmt::Display for Answer {
    fn fmt<W: fmt::Write>(&self, f: &mut fmt::Formatter<W>) -> fmt::Result {
        match self {
            Answer::Truth(true) => f.write_str("yes"),
            Answer::Truth(false) => f.write_str("no"),
            Answer::Byte(Some(byte)) => write!(f, "byte {byte}"),
            Answer::Place(Some(number)) | Answer::Number(number) => write!(f, "{number}"),
            Answer::Byte(None) | Answer::Place(None) => f.write_str("none"),
            Answer::Rank(Ordering::Less) => f.write_str("less"),
            Answer::Rank(Ordering::Equal) => f.write_str("equal"),
            Answer::Rank(Ordering::Greater) => f.write_str("greater"),
            Answer::Outcome(Ok(())) => f.write_str("done"),
            Answer::Outcome(Err(error)) => {
                write!(f, "refused {}", error.number())?;
                match error {
                    StringModificationError::InvalidCharacter { place } => write!(f, " at {place}"),
                    _ => Ok(()),
                }
            }
        }
    }
}

// What all storages answer, if they do and the call has a word that is known.
#[derive(Clone, Copy)]
pub struct Agreed(pub Option<Answer>);

impl fmt::Display for Agreed {
    fn fmt<W: fmt::Write>(&self, f: &mut fmt::Formatter<W>) -> fmt::Result {
        match &self.0 {
            Some(answer) => write!(f, "{answer}"),
            None => f.write_str("?"),
        }
    }
}
