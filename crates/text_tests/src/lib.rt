// Examples of rules, normal forms and checked texts. What they should give is worked out by hand.
#![tactic(auto)]

ghost use Rattle.std.specs.Prelude.{◌||◌, length, nat_lt};
ghost use Rattle.std.proofs.lemmas.Bool.{and_left, or_left};
ghost use Rattle.rules.specs.Sets.{some_outside, strange_outside};
ghost use Rattle.text_tests.specs.Lists.{is_among};

use rules::SemanticStringAccessor;
use rules::characters::any_outside;
use string::pick::{ByteList, Pick};

#[cfg(test)]
mod rule_tests;
#[cfg(test)]
mod text_tests;

// The characters of a list that its owner keeps.
#[derive(Clone, Copy)]
struct Among<'a> {
    bytes: &'a [u8],
}

impl<'a> Pick for Among<'a> {
    ghost picked = { λ p b. is_among p.bytes.now b };

    fn picks(&self, byte: u8) -> bool {
        byte != 0 && byte < 128 && ByteList { bytes: self.bytes }.picks(byte)
    }
}

// A rule that borrows what it allows: the empty text, and one character of such a list.
#[derive(Clone, Copy)]
struct OneOf<'a> {
    bytes: &'a [u8],
}

impl<'a> SemanticStringAccessor for OneOf<'a> {
    ghost bad_characters = { λ r s. some_outside (is_among r.bytes.now) s };

    ghost bad_content = { λ r s. some_outside (is_among r.bytes.now) s || nat_lt 1 (length s) };

    ghost strange = { λ r s i h e. strange_outside (is_among r.bytes.now) (λ b k. and_left _ _ k) s i h e };

    ghost wider = { λ r s h. or_left _ _ h };

    fn does_contain_invalid_characters(&self, string: &[u8]) -> bool {
        any_outside(&Among { bytes: self.bytes }, string)
    }

    fn is_invalid_content(&self, string: &[u8]) -> bool {
        self.does_contain_invalid_characters(string) || string.len() > 1
    }
}
