ghost use Rattle.std.specs.Prelude.{◌≡◌};
ghost use Rattle.textday.specs.declared.telling.Outcome.TheVariants.{Correction, Strip};

use anyhow::bail;
use rules::{NormalForm, SemanticStringAccessor};
use semantic_string::SemanticString;
use semantic_string::error::SemanticStringError;
use static_string::StaticString;
use std::{fmt, io};
use string_view::StringView;
use string_view::error::{Numbered, StringModificationError};

// A text in hand, and where its corrections are told, as raceday has it for plain strings (the reason stands there). The
// text's type is a parameter, since telling asks no more of it than that it can be read.
#[derive(Drop)]
pub struct Told<'a, P, T> {
    pub rt: &'a P,
    pub text: T,
}

impl<'a, P: Print, T: Legible> Told<'a, P, T> {
    // Tells of a set-up that is refused, or takes the text in hand.
    pub fn set_up(
        rt: &'a P,
        asked: &str,
        made: Result<T, SemanticStringError>,
    ) -> anyhow::Result<Told<'a, P, T>>
    where
        T: Drop,
    {
        match made {
            Ok(text) => {
                println!(rt; "  {asked}: kept {}", Shown(&text))?;
                Ok(Told { rt, text })
            }
            Err(error) => {
                println!(rt; "  {asked}: {} ", Refused(error))?;
                bail!("no text stands")
            }
        }
    }

    // Makes a correction, and tells what came of it, with the text as it then stands.
    pub(crate) fn correct<A: Into<Outcome>, F: FnOnce(&mut T) -> A>(
        &mut self,
        asked: &str,
        correction: F,
    ) -> io::Result<()>
        requires { F.IsAlwaysCallable correction }
    {
        let outcome: Outcome = correction(&mut self.text).into();
        println!(self.rt; "  {asked}: {outcome} {}", Shown(&self.text))
    }
}

impl<P: Print, S: StringView, R: SemanticStringAccessor> Told<'_, P, SemanticString<S, R>> {
    // The text on another storage, with the same bytes and the same rule.
    pub fn take_over<T: StringView + Drop>(
        &self,
        to: T,
        rule: R,
    ) -> Result<SemanticString<T, R>, SemanticStringError>
    where
        R: Drop,
    {
        SemanticString::new(to, rule, self.text.copy().as_slice())
    }

    // Tells how the text compares with another one, whatever their spelling.
    pub fn beside<T: StringView>(&self, other: &Told<P, SemanticString<T, R>>) -> io::Result<()>
    where
        R: NormalForm,
    {
        let place = if self.text.same(&other.text) {
            "is the same as"
        } else if self.text.compare(&other.text).is_lt() {
            "stands before"
        } else {
            "stands after"
        };
        println!(self.rt; "  ours {place} {}", Shown(&other.text))
    }
}

// What can be read as a text.
pub trait Legible {
    fn copy(&self) -> StaticString;
}

impl<S: StringView, R: SemanticStringAccessor> Legible for SemanticString<S, R> {
    fn copy(&self) -> StaticString {
        StaticString::copy_of(self.as_string())
    }
}

// A text as it stands.
#[derive(Drop)]
struct Shown<'a, T>(&'a T);

impl<T: Legible> fmt::Display for Shown<'_, T> {
    fn fmt<W: fmt::Write>(&self, f: &mut fmt::Formatter<W>) -> fmt::Result {
        let copy = self.0.copy();
        let text = std::str::from_utf8(copy.as_slice()).map_err(|_| fmt::Error)?;
        write!(f, "[{text}]")
    }
}

// What came of a correction, or of a strip, which may find nothing.
#[derive(Clone, Copy, PartialEq, Eq, Debug)]
pub enum Outcome {
    Correction(Result<(), SemanticStringError>),
    Strip(Result<bool, SemanticStringError>),
}

impl From<Result<(), SemanticStringError>> for Outcome {
    ghost from_gives = { λ x o. o ≡ Correction x };

    fn from(outcome: Result<(), SemanticStringError>) -> Outcome {
        Outcome::Correction(outcome)
    }
}

impl From<Result<bool, SemanticStringError>> for Outcome {
    ghost from_gives = { λ x o. o ≡ Strip x };

    fn from(found: Result<bool, SemanticStringError>) -> Outcome {
        Outcome::Strip(found)
    }
}

impl fmt::Display for Outcome {
    fn fmt<W: fmt::Write>(&self, f: &mut fmt::Formatter<W>) -> fmt::Result {
        match self {
            Outcome::Correction(Ok(())) | Outcome::Strip(Ok(true)) => f.write_str("kept"),
            Outcome::Strip(Ok(false)) => f.write_str("nothing to remove"),
            Outcome::Correction(Err(error)) | Outcome::Strip(Err(error)) => {
                write!(f, "{}", Refused(*error))
            }
        }
    }
}

// A refusal by its number, with that of the plain string's inside.
#[derive(Clone, Copy)]
pub struct Refused(pub SemanticStringError);

impl fmt::Display for Refused {
    fn fmt<W: fmt::Write>(&self, f: &mut fmt::Formatter<W>) -> fmt::Result {
        write!(f, "refused ({}", self.0.number())?;
        if let SemanticStringError::ExceedsMaximumLength(inner) = self.0 {
            write!(f, " with {}", inner.number())?;
            if let StringModificationError::InvalidCharacter { place } = inner {
                write!(f, " at {place}")?;
            }
        }
        f.write_str(")")
    }
}
