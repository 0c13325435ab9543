#![tactic(auto)]

ghost use Rattle.std.specs.Prelude.{◌≡◌, ◌↔◌, IsTrue, ℕ, false, List, ◌++◌, map};
ghost use Rattle.std.specs.List.{list_all};
ghost use Rattle.string_bytes.specs.Buffers.{AnswersLength, FillsFront};
ghost use Rattle.rules.specs.Letters.{is_letter, is_digit};
ghost use Rattle.std.proofs.lemmas.Bool.{or_left};
ghost use Rattle.rules.specs.Sets.{some_outside, strange_outside};
ghost use Rattle.sail_mark.specs.Marks.{is_mark_character, is_number, behind_blank, is_mark, is_invalid_mark, SailMarked, capital, mark_byte, normal_mark, mark_characters};
ghost use Rattle.sail_mark.specs.Laws.{mark_settled, mark_bounded};

use rules::characters::{any_outside, is_digit, is_letter};
use rules::spelling::{Spelling, write_spelling};
use rules::{NormalForm, SemanticStringAccessor};
use string::pick::Pick;
use string_view::error::BufferTooShort;

// The characters of a sail mark: letters, digits and the blank.
#[derive(Clone, Copy)]
pub struct MarkCharacters;

impl Pick for MarkCharacters {
    ghost picked = { λ _ b. is_mark_character b };

    fn picks(&self, byte: u8) -> bool {
        is_letter(byte) || is_digit(byte) || byte == b' '
    }
}

// Whether every byte is a letter. This and the next stand alone: within a longer condition the check does not find what
// `all` answers.
fn are_letters(string: &[u8]) -> bool
    ensures { result ≡ list_all is_letter string.now }
{
    string.iter().all(|byte| is_letter(*byte))
}

// Whether every byte is a digit.
fn are_digits(string: &[u8]) -> bool
    ensures { result ≡ list_all is_digit string.now }
{
    string.iter().all(|byte| is_digit(*byte))
}

// Whether the bytes are one to six digits.
fn is_number(string: &[u8]) -> bool
    ensures { result ≡ is_number string.now }
{
    (1..=6).contains(&string.len()) && are_digits(string)
}

// Whether the bytes are at most one blank, and one to six digits.
fn is_spaced_number(string: &[u8]) -> bool
    ensures { result ≡ is_number (behind_blank string.now) }
{
    is_number(string.strip_prefix(b" ").unwrap_or(string))
}

// Whether the bytes are three letters, at most one blank, and one to six digits.
fn is_mark(string: &[u8]) -> bool
    ensures { result ≡ is_mark string.now }
{
    let Some((nation, rest)) = string.split_at_checked(3) else {
        return false;
    };
    are_letters(nation) && is_spaced_number(rest)
}

// The rule of a sail mark.
#[derive(Clone, Copy)]
pub struct SailMark;

// Offered by each rule itself, which promises beside the trait's clauses what its own answer means.
impl SemanticStringAccessor for SailMark {
    ghost bad_characters = { λ _. some_outside is_mark_character };

    ghost bad_content = { λ _. is_invalid_mark };

    ghost strange = { λ _. strange_outside is_mark_character mark_characters };

    ghost wider = { λ _ s h. or_left _ _ h };

    fn does_contain_invalid_characters(&self, string: &[u8]) -> bool {
        any_outside(&MarkCharacters, string)
    }

    // As the trait has it, and what it means.
    fn is_invalid_content(&self, string: &[u8]) -> bool
        ensures answer { result ≡ is_invalid_mark string.now }
        ensures meaning { IsTrue result ↔ (SailMarked string.now → ⊥) }
    {
        self.does_contain_invalid_characters(string) || !is_mark(string)
    }
}

// Capitals, and no blank.
#[derive(Clone, Copy)]
struct MarkSpelling;

impl Spelling for MarkSpelling {
    ghost spelt = { λ _ s. mark_byte s };

    #[tactic(auto, using(crate::specs::Laws::capital_is))]
    fn spell(&self, rest: &[u8]) -> Option<u8> {
        match rest {
            [] | [b' ', ..] => None,
            [byte, ..] => Some(byte.to_ascii_uppercase()),
        }
    }
}

impl NormalForm for SailMark {
    ghost normal = { λ _ s. normal_mark s };

    ghost settled = { λ _ s. mark_settled s };

    ghost bounded = { λ _ s. mark_bounded s };

    // As the trait has it, and what the normal form of a mark is.
    #[tactic(auto, using(crate::proofs::Normal::normal_spelling, crate::proofs::Normal::normal_is, crate::proofs::Normal::normal_valid))]
    fn normalize(&self, string: &[u8], buffer: &mut [u8]) -> Result<usize, BufferTooShort>
        ensures answer { AnswersLength (normal_mark string.now) buffer.old result }
        ensures cells { FillsFront (normal_mark string.now) buffer.old buffer.new result }
        ensures valid { (s : List ℕ) → is_invalid_mark s ≡ false → is_invalid_mark (normal_mark s) ≡ false }
        ensures meaning { (m : SailMarked string.now) → normal_mark string.now ≡ map capital m.nation ++ m.number }
    {
        write_spelling(&MarkSpelling, string, buffer)
    }
}
