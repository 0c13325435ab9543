ghost use Rattle.std.specs.Prelude.{◌≡◌};
ghost use Rattle.raceday.specs.declared.telling.Outcome.TheVariants.{Insertion, Removal};

use static_string::StaticString;
use std::cmp::Ordering;
use std::{fmt, io};
use string_view::StringView;
use string_view::error::{Numbered, StringModificationError};

// A mark in hand, and where its corrections are told. textday has one of its own, for checked texts: what the two could
// share, a struct, a method and how a text is shown, is less than the crate and the trait that would have to carry it.
#[derive(Drop)]
pub struct Told<'a, R, S> {
    pub rt: &'a R,
    pub mark: S,
}

impl<'a, R, S> Told<'a, R, S> {
    pub fn new(rt: &'a R, mark: S) -> Told<'a, R, S> {
        Told { rt, mark }
    }
}

impl<R: Print, S: StringView> Told<'_, R, S> {
    // Makes a correction, and tells what came of it, with the mark as it then stands.
    pub(crate) fn correct<A: Into<Outcome>, F: FnOnce(&mut S) -> A>(
        &mut self,
        asked: &str,
        correction: F,
    ) -> io::Result<()>
        requires { F.IsAlwaysCallable correction }
    {
        let outcome: Outcome = correction(&mut self.mark).into();
        let mark = Shown(&self.mark);
        println!(self.rt; "  {asked}: {outcome} {mark}")
    }
}

// A mark as it stands.
#[derive(Drop)]
pub struct Shown<'a, S>(pub &'a S);

impl<S: StringView> fmt::Display for Shown<'_, S> {
    fn fmt<W: fmt::Write>(&self, f: &mut fmt::Formatter<W>) -> fmt::Result {
        let copy = StaticString::copy_of(self.0);
        let text = std::str::from_utf8(copy.as_slice()).map_err(|_| fmt::Error)?;
        write!(f, "[{text}]")
    }
}

// What came of a correction that inserts bytes, or of one that removes some.
#[derive(Clone, Copy, PartialEq, Eq, Debug)]
pub enum Outcome {
    Insertion(Result<(), StringModificationError>),
    Removal(bool),
}

impl From<Result<(), StringModificationError>> for Outcome {
    ghost from_gives = { λ x o. o ≡ Insertion x };

    fn from(outcome: Result<(), StringModificationError>) -> Outcome {
        Outcome::Insertion(outcome)
    }
}

impl From<bool> for Outcome {
    ghost from_gives = { λ x o. o ≡ Removal x };

    fn from(done: bool) -> Outcome {
        Outcome::Removal(done)
    }
}

impl fmt::Display for Outcome {
    fn fmt<W: fmt::Write>(&self, f: &mut fmt::Formatter<W>) -> fmt::Result {
        match self {
            Outcome::Insertion(Ok(())) => f.write_str("kept"),
            Outcome::Insertion(Err(error)) => write!(f, "{}", Refused(*error)),
            Outcome::Removal(true) => f.write_str("done"),
            Outcome::Removal(false) => f.write_str("nothing to remove"),
        }
    }
}

// A refusal by its number.
#[derive(Clone, Copy)]
pub struct Refused<E>(pub E);

impl<E: Numbered> fmt::Display for Refused<E> {
    fn fmt<W: fmt::Write>(&self, f: &mut fmt::Formatter<W>) -> fmt::Result {
        write!(f, "refused ({})", self.0.number())
    }
}

// Where a mark stands beside another one.
#[derive(Clone, Copy)]
pub struct Place(pub Ordering);

impl fmt::Display for Place {
    fn fmt<W: fmt::Write>(&self, f: &mut fmt::Formatter<W>) -> fmt::Result {
        f.write_str(match self.0 {
            Ordering::Less => "before",
            Ordering::Equal => "beside",
            Ordering::Greater => "after",
        })
    }
}
