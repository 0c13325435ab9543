ghost use Rattle.std.specs.Prelude.{◌≡◌, ◌↔◌, IsTrue, false};
ghost use Rattle.static_string.specs.Fixed as fixed;
ghost use Rattle.string_search.specs.Order.{Compared, TotalOrder};
ghost use Rattle.string_bytes.specs.Buffers.{AnswersLength, FillsFront};
ghost use Rattle.semantic_string.specs.Normal.{normal_of};
ghost use Rattle.semantic_string.specs.Texts.{Sound};

use crate::SemanticString;
use rules::{NormalForm, SemanticStringAccessor};
use static_string::StaticString;
use std::cmp::Ordering;
use string_search::{compare, same};
use string_view::StringView;
use string_view::error::BufferTooShort;

// What only a rule with a normal form allows to ask.
impl<S: StringView, R: NormalForm> SemanticString<S, R> {
    // Writes the normal form into the first cells of the buffer, and answers how many bytes it is.
    pub fn normalize(&self, buffer: &mut [u8]) -> Result<usize, BufferTooShort>
        ensures answer { AnswersLength (normal_of S.StringView R.NormalForm.own self.now) buffer.old result }
        ensures cells { FillsFront (normal_of S.StringView R.NormalForm.own self.now) buffer.old buffer.new result }
        ensures valid { Sound S.StringView R.SemanticStringAccessor self.now → R.bad_content self.now.rule (normal_of S.StringView R.NormalForm.own self.now) ≡ false }
    {
        let text = StaticString::copy_of(&self.storage);
        self.rule.normalize(text.as_slice(), buffer)
    }

    // The normal form, as a string of its own, by way of a buffer, since that is what a rule writes into.
    fn normalized(&self) -> StaticString
        ensures { fixed.text_of result ≡ normal_of S.StringView R.NormalForm.own self.now }
    {
        let mut normal = [0u8; 255];
        let mut copy = StaticString::new(255);
        if let Ok(count) = self.normalize(&mut normal) {
            copy.put(0, &normal[0..count]);
        }
        copy
    }

    // Whether two texts have the same normal form.
    pub fn same<T: StringView>(&self, other: &SemanticString<T, R>) -> bool
        ensures answer { IsTrue result ↔ (normal_of S.StringView R.NormalForm.own self.now ≡ normal_of T.StringView R.NormalForm.own other.now) }
    {
        same(&self.normalized(), &other.normalized())
    }

    // The order of two texts by the bytes of their normal forms. A proper start comes first.
    pub fn compare<T: StringView>(&self, other: &SemanticString<T, R>) -> Ordering
        ensures answer { Compared (normal_of S.StringView R.NormalForm.own self.now) (normal_of T.StringView R.NormalForm.own other.now) result }
        ensures total { TotalOrder }
    {
        compare(&self.normalized(), &other.normalized())
    }
}
