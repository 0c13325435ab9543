ghost use Rattle.std.specs.Prelude.{◌≡◌, ◌≤◌, true, [], ◌∷◌, length, take};
ghost use Rattle.std.specs.Str.{bytes_eq};
ghost use Rattle.rules.specs.Letters.{is_letter, is_digit};
ghost use Rattle.rules.specs.Sets.{some_outside};

use string::pick::Pick;

// Whether the byte is one of RFC 20's letters.
#[tactic(auto, using(crate::proofs::Letters::capital_is, crate::proofs::Letters::small_is))]
pub fn is_letter(byte: u8) -> bool
    ensures answer { result ≡ is_letter byte }
{
    byte.is_ascii_alphabetic()
}

// Whether the byte is one of RFC 20's digits.
#[tactic(auto, using(crate::proofs::Letters::digit_is))]
pub fn is_digit(byte: u8) -> bool
    ensures answer { result ≡ is_digit byte }
{
    byte.is_ascii_digit()
}

// Whether some byte is none of those that the pick names.
pub fn any_outside<P: Pick>(pick: &P, string: &[u8]) -> bool
    ensures answer { result ≡ some_outside (P.picked pick.now) string.now }
{
    string.iter().any(|byte| !pick.picks(*byte))
}

// Whether the bytes are those of the word: a public name, for rules in other crates; nothing here calls it.
pub fn spells(string: &[u8], word: &[u8]) -> bool
    ensures answer { result ≡ bytes_eq string.now word.now }
{
    string == word
}

// Whether the byte stands in front.
pub fn starts_with(string: &[u8], byte: u8) -> bool
    ensures answer { result ≡ bytes_eq (take 1 string.now) (byte ∷ []) }
    ensures some { result ≡ true → 1 ≤ length string.now }
{
    string.first() == Some(&byte)
}
