#![tactic(auto)]

ghost use Rattle.std.specs.Prelude.{◌≡◌, ◌↔◌, IsTrue, refl};
ghost use Rattle.std.proofs.lemmas.Bool.{or_left};
ghost use Rattle.rules.specs.Sets.{some_outside, strange_outside};
ghost use Rattle.file_name.specs.Names.{is_portable, is_no_name, is_invalid_name, InvalidName, portable_characters};

use rules::characters::{any_outside, is_digit, is_letter};
use rules::spelling::write_bytes;
use rules::{NormalForm, SemanticStringAccessor};
use string::pick::Pick;
use string_view::error::BufferTooShort;

// POSIX.1's portable filename characters.
#[derive(Clone, Copy)]
pub struct PortableCharacters;

impl Pick for PortableCharacters {
    ghost picked = { λ _ b. is_portable b };

    fn picks(&self, byte: u8) -> bool {
        is_letter(byte) || is_digit(byte) || matches!(byte, b'.' | b'_' | b'-')
    }
}

// Whether the bytes are no file name, whatever characters they are.
fn is_no_name(string: &[u8]) -> bool
    ensures { result ≡ is_no_name string.now }
{
    matches!(string, b"" | b"." | b".." | [b'-', ..])
}

// The rule of a file name.
#[derive(Clone, Copy)]
pub struct FileName;

// Offered by each rule itself, which promises beside the trait's clauses what its own answer means.
impl SemanticStringAccessor for FileName {
    ghost bad_characters = { λ _. some_outside is_portable };

    ghost bad_content = { λ _. is_invalid_name };

    ghost strange = { λ _. strange_outside is_portable portable_characters };

    ghost wider = { λ _ s h. or_left _ _ h };

    fn does_contain_invalid_characters(&self, string: &[u8]) -> bool {
        any_outside(&PortableCharacters, string)
    }

    // As the trait has it, and what it means.
    fn is_invalid_content(&self, string: &[u8]) -> bool
        ensures answer { result ≡ is_invalid_name string.now }
        ensures meaning { IsTrue result ↔ InvalidName string.now }
    {
        self.does_contain_invalid_characters(string) || is_no_name(string)
    }
}

impl NormalForm for FileName {
    ghost normal = { λ _ s. s };

    ghost settled = { λ _ s. refl };

    ghost bounded = { λ _ s h. h };

    fn normalize(&self, string: &[u8], buffer: &mut [u8]) -> Result<usize, BufferTooShort> {
        write_bytes(string, buffer)
    }
}
