#![tactic(auto)]

ghost use Rattle.std.specs.Prelude.{◌≡◌, ◌↔◌, IsTrue, ℕ, false, List, codes};
ghost use Rattle.string_bytes.specs.Buffers.{AnswersLength, FillsFront};
ghost use Rattle.std.proofs.lemmas.Bool.{or_left};
ghost use Rattle.rules.specs.Sets.{some_outside, strange_outside};
ghost use Rattle.path.specs.Laws.{normal_settled, normal_bounded};
ghost use Rattle.path.specs.Normal.{path_byte, normal_path, NormalPath};
ghost use Rattle.path.specs.Pieces.{is_path_character, pieces, holds, is_no_path, is_invalid_path, InvalidPath, path_characters};

use file_name::PortableCharacters;
use rules::characters::{any_outside, starts_with};
use rules::spelling::{Spelling, spelling_len, write_bytes, write_spelling};
use rules::{NormalForm, SemanticStringAccessor};
use string::pick::Pick;
use string_view::error::BufferTooShort;

// The characters of a path: those of a file name, and the slash.
#[derive(Clone, Copy)]
pub struct PathCharacters;

impl Pick for PathCharacters {
    ghost picked = { λ _ b. is_path_character b };

    fn picks(&self, byte: u8) -> bool {
        PortableCharacters.picks(byte) || byte == b'/'
    }
}

// Whether a piece, cut at the slashes, is `..`.
fn has_dot_dot(string: &[u8]) -> bool
    ensures { result ≡ holds (pieces string.now) (codes "..") }
{
    string
        .split(|byte| *byte == b'/')
        .any(|piece| piece == b"..".as_slice())
}

// Whether the bytes are no path, whatever characters they are.
fn is_no_path(string: &[u8]) -> bool
    ensures { result ≡ is_no_path string.now }
{
    string.is_empty() || has_dot_dot(string)
}

// The rule of a path.
#[derive(Clone, Copy)]
pub struct Path;

// Offered by each rule itself, which promises beside the trait's clauses what its own answer means.
impl SemanticStringAccessor for Path {
    ghost bad_characters = { λ _. some_outside is_path_character };

    ghost bad_content = { λ _. is_invalid_path };

    ghost strange = { λ _. strange_outside is_path_character path_characters };

    ghost wider = { λ _ s h. or_left _ _ h };

    fn does_contain_invalid_characters(&self, string: &[u8]) -> bool {
        any_outside(&PathCharacters, string)
    }

    // As the trait has it, and what it means.
    fn is_invalid_content(&self, string: &[u8]) -> bool
        ensures answer { result ≡ is_invalid_path string.now }
        ensures meaning { IsTrue result ↔ InvalidPath string.now }
    {
        self.does_contain_invalid_characters(string) || is_no_path(string)
    }
}

// A slash stays where a piece follows it, and every other byte stays.
#[derive(Clone, Copy)]
struct PathSpelling;

impl Spelling for PathSpelling {
    ghost spelt = { λ _ s. path_byte s };

    fn spell(&self, rest: &[u8]) -> Option<u8> {
        match rest {
            [] | [b'/'] | [b'/', b'/', ..] => None,
            [byte, ..] => Some(*byte),
        }
    }
}

impl NormalForm for Path {
    ghost normal = { λ _ s. normal_path s };

    ghost settled = { λ _ s. normal_settled s };

    ghost bounded = { λ _ s. normal_bounded s };

    // As the trait has it, and what a normal path is.
    #[tactic(auto, using(crate::proofs::Normals::normal_valid, crate::proofs::Normals::normal_only))]
    fn normalize(&self, string: &[u8], buffer: &mut [u8]) -> Result<usize, BufferTooShort>
        ensures answer { AnswersLength (normal_path string.now) buffer.old result }
        ensures cells { FillsFront (normal_path string.now) buffer.old buffer.new result }
        ensures valid { (s : List ℕ) → is_invalid_path s ≡ false → is_invalid_path (normal_path s) ≡ false }
        ensures meaning { NormalPath string.now (normal_path string.now) }
        ensures only { (t : List ℕ) → NormalPath string.now t → t ≡ normal_path string.now }
    {
        // slashes alone become one
        if starts_with(string, b'/') && spelling_len(&PathSpelling, string) == 0 {
            return write_bytes(b"/", buffer);
        }
        write_spelling(&PathSpelling, string, buffer)
    }
}
