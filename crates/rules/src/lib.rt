#![tactic(auto)]

ghost use Rattle.std.specs.Prelude.{◌≡◌, ℕ, ◌<◌, ◌≤◌, Bool, true, false, List, length, slice_index};
ghost use Rattle.string_view.specs.Characters.{is_character};
ghost use Rattle.string_bytes.specs.Buffers.{AnswersLength, FillsFront};

use string_view::error::BufferTooShort;

pub mod characters;
pub mod pair;
pub mod spelling;

// A rule: which texts are valid. It is asked of any bytes, and answers alike for the same bytes.
// Whoever offers one shows all that is written here.
pub trait SemanticStringAccessor {
    // the sequences with an invalid character
    ghost bad_characters: { Self → List ℕ → Bool };

    // the sequences that are no valid text
    ghost bad_content: { Self → List ℕ → Bool };

    fn does_contain_invalid_characters(&self, string: &[u8]) -> bool
        ensures answer { result ≡ bad_characters self.now string.now };

    fn is_invalid_content(&self, string: &[u8]) -> bool
        ensures answer { result ≡ bad_content self.now string.now };

    // what is no character is an invalid character of every rule
    ghost strange: { (x : Self) (s : List ℕ) (i : ℕ) → i < length s → is_character (slice_index s i) ≡ false → bad_characters x s ≡ true };

    // a text with an invalid character is not valid
    ghost wider: { (x : Self) (s : List ℕ) → bad_characters x s ≡ true → bad_content x s ≡ true };
}

// A rule under which one text can be spelt in several ways, of which one is the normal form.
pub trait NormalForm: SemanticStringAccessor {
    ghost normal: { Self → List ℕ → List ℕ };

    // Writes the normal form into the first cells of the buffer, and answers how many bytes it is.
    fn normalize(&self, string: &[u8], buffer: &mut [u8]) -> Result<usize, BufferTooShort>
        ensures answer { AnswersLength (normal self.now string.now) buffer.old result }
        ensures cells { FillsFront (normal self.now string.now) buffer.old buffer.new result }
        ensures valid { (s : List ℕ) → Self.bad_content self.now s ≡ false → Self.bad_content self.now (normal self.now s) ≡ false };

    // normalising twice is normalising once
    ghost settled: { (x : Self) (s : List ℕ) → normal x (normal x s) ≡ normal x s };

    // what a string can hold has a normal form that a string can hold
    ghost bounded: { (x : Self) (s : List ℕ) → length s ≤ 255 → length (normal x s) ≤ 255 };
}
