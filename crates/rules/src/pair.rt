ghost use Rattle.std.specs.Prelude.{◌||◌};
ghost use Rattle.std.proofs.lemmas.Bool.{or_left};
ghost use Rattle.rules.specs.Pairs.{either_both};

use crate::SemanticStringAccessor;

// Two rules at once: a text is invalid where either says so.
#[derive(Clone, Copy, Drop)]
pub struct Pair<A, B> {
    pub first: A,
    pub second: B,
}

impl<A: SemanticStringAccessor, B: SemanticStringAccessor> SemanticStringAccessor for Pair<A, B> {
    ghost bad_characters = { λ p s. A.bad_characters p.first s || B.bad_characters p.second s };

    ghost bad_content = { λ p s. A.bad_content p.first s || B.bad_content p.second s };

    ghost strange = { λ p s i h e. or_left _ _ (A.strange p.first s i h e) };

    ghost wider = { λ p s. either_both _ _ _ _ (A.wider p.first s) (B.wider p.second s) };

    fn does_contain_invalid_characters(&self, string: &[u8]) -> bool {
        self.first.does_contain_invalid_characters(string)
            || self.second.does_contain_invalid_characters(string)
    }

    fn is_invalid_content(&self, string: &[u8]) -> bool {
        self.first.is_invalid_content(string) || self.second.is_invalid_content(string)
    }
}
