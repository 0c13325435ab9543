#![tactic(auto)]

ghost use Rattle.std.specs.Prelude.{◌≡◌, ◌-◌, [], ◌∷◌, ◌++◌, length, ◌==◌, nat_le};
ghost use Rattle.static_string.specs.Fixed as fixed;
ghost use Rattle.string_view.specs.Checks.{first_fail, answered};
ghost use Rattle.string_search.specs.Search.{Stands, First, Last};
ghost use Rattle.string_bytes.specs.Buffers.{AnswersLength, FillsFront};
ghost use Rattle.string_bytes.specs.Terminated.{terminated};
ghost use Rattle.semantic_string.specs.Checks.{content, setting_up};
ghost use Rattle.semantic_string.specs.Edits.{removal, range_removal, retention, truncation, front_strip, end_strip};
ghost use Rattle.semantic_string.specs.Refusals.{semantic_told};
ghost use Rattle.semantic_string.specs.Texts.{Inserted, Appended, Checked, SetUp, set_up_as};

use narrow::Narrow;
use rules::SemanticStringAccessor;
use static_string::StaticString;
use string::pick::Pick;
use string::{insert_bytes, is_empty, is_full, remove, remove_range, retain, truncate};
use string_bytes::utils::strnlen;
use string_bytes::{as_bytes, from_bytes};
use string_search::{find, rfind, strip_prefix, strip_suffix};
use string_view::StringView;
use string_view::error::BufferTooShort;

pub mod error;
mod normal;

use error::{SemanticStringError, passed_on};

// A text that keeps a rule, over any storage and any rule. That it is valid and within its capacity is promised by
// set-up, and kept by every edit. It is no fact of the type: that would need bounds here, and callers could then hold
// and hand on a text in fewer ways (docs/DECISIONS.md, "Facts stand in the types").
#[derive(Drop)]
pub struct SemanticString<S, R> {
    storage: S,
    rule: R,
}

impl<S: StringView + Drop, R: SemanticStringAccessor + Drop> SemanticString<S, R> {
    // Makes the bytes the text of a storage, whatever it held. Where that is refused, the storage is used up.
    pub fn new(
        storage: S,
        rule: R,
        value: &[u8],
    ) -> Result<SemanticString<S, R>, SemanticStringError>
        ensures answer { answered semantic_told (set_up_as result) ≡ first_fail tt (setting_up (R.bad_content rule) (S.room storage) value.now) }
        ensures text { SetUp S.StringView R.SemanticStringAccessor storage rule value.now result }
    {
        let mut storage = storage;
        from_bytes(&mut storage, value).map_err(passed_on)?;
        if rule.is_invalid_content(value) {
            return Err(SemanticStringError::InvalidContent);
        }
        Ok(SemanticString { storage, rule })
    }

    // As `new`, with the bytes before a slot's first zero. Of a longer slot the first capacity + 1 bytes are looked
    // at, and all of them are taken where none is zero.
    pub fn from_c_str(
        storage: S,
        rule: R,
        slot: &[u8],
    ) -> Result<SemanticString<S, R>, SemanticStringError>
        ensures answer { answered semantic_told (set_up_as result) ≡ first_fail tt (setting_up (R.bad_content rule) (S.room storage) (terminated (S.room storage) slot.now)) }
        ensures text { SetUp S.StringView R.SemanticStringAccessor storage rule (terminated (S.room storage) slot.now) result }
    {
        let end = strnlen(slot, storage.capacity() + 1);
        SemanticString::new(storage, rule, &slot[0..end])
    }
}

// The edits differ in the plain call, which each makes on two types, a copy and the storage; so none of them can take
// it as a closure.
impl<S: StringView, R: SemanticStringAccessor> SemanticString<S, R> {
    // The storage, to ask.
    pub fn as_string(&self) -> &S
        ensures answer { result.now ≡ self.now.storage }
    {
        &self.storage
    }

    // Whether the rule allows the text that a trial came to.
    fn check(&self, trial: &StaticString) -> Result<(), SemanticStringError>
        ensures { answered semantic_told result ≡ first_fail tt (content (R.bad_content self.now.rule) (fixed.text_of trial.now) ∷ []) }
    {
        if self.rule.is_invalid_content(trial.as_slice()) {
            return Err(SemanticStringError::InvalidContent);
        }
        Ok(())
    }

    // Writes the text into the first cells of the buffer, and answers how many bytes it is.
    pub fn as_bytes(&self, buffer: &mut [u8]) -> Result<usize, BufferTooShort>
        ensures answer { AnswersLength (S.seq self.now.storage) buffer.old result }
        ensures cells { FillsFront (S.seq self.now.storage) buffer.old buffer.new result }
    {
        as_bytes(&self.storage, buffer)
    }

    // The storage's capacity.
    pub fn capacity(&self) -> usize
        ensures answer { result ≡ S.room self.now.storage }
    {
        self.storage.capacity()
    }

    // The first place at which the pattern stands.
    pub fn find(&self, bytes: &[u8]) -> Option<usize>
        ensures answer { First (Stands (S.seq self.now.storage) bytes.now) result }
    {
        find(&self.storage, bytes)
    }

    // The last place at which the pattern stands.
    pub fn rfind(&self, bytes: &[u8]) -> Option<usize>
        ensures answer { Last (Stands (S.seq self.now.storage) bytes.now) result }
    {
        rfind(&self.storage, bytes)
    }

    // Whether no byte more fits.
    pub fn is_full(&self) -> bool
        ensures answer { result ≡ nat_le (S.room self.now.storage) (length (S.seq self.now.storage)) }
    {
        is_full(&self.storage)
    }

    // Whether there is no byte.
    pub fn is_empty(&self) -> bool
        ensures answer { result ≡ (length (S.seq self.now.storage) == 0) }
    {
        is_empty(&self.storage)
    }

    // The number of bytes.
    pub fn len(&self) -> usize
        ensures answer { result ≡ length (S.seq self.now.storage) }
    {
        self.storage.len()
    }

    // Inserts a byte at a place.
    pub fn insert(&mut self, idx: usize, byte: u8) -> Result<(), SemanticStringError>
        ensures edit { Inserted S.StringView R.SemanticStringAccessor idx (byte ∷ []) self.old self.new result }
    {
        self.insert_bytes(idx, &[byte])
    }

    // Inserts bytes at a place.
    pub fn insert_bytes(&mut self, idx: usize, bytes: &[u8]) -> Result<(), SemanticStringError>
        ensures edit { Inserted S.StringView R.SemanticStringAccessor idx bytes.now self.old self.new result }
    {
        // A copy of a text that is longer than the capacity has more room than the storage.
        let mut trial = Narrow::new(StaticString::copy_of(&self.storage), self.capacity());
        insert_bytes(&mut trial, idx, bytes).map_err(passed_on)?;
        self.check(&trial.into_inner())?;
        self.storage.put(idx, bytes);
        Ok(())
    }

    // Removes the last byte and answers it; none, if there is none.
    pub fn pop(&mut self) -> Result<Option<u8>, SemanticStringError>
        ensures edit { Checked S.StringView R.SemanticStringAccessor (λ s. removal (length s - 1) s) self.old self.new result }
    {
        let last = self.len().saturating_sub(1);
        self.remove(last)
    }

    // Inserts a byte at the end.
    pub fn push(&mut self, byte: u8) -> Result<(), SemanticStringError>
        ensures edit { Appended S.StringView R.SemanticStringAccessor (byte ∷ []) self.old self.new result }
    {
        self.push_bytes(&[byte])
    }

    // Inserts bytes at the end.
    pub fn push_bytes(&mut self, bytes: &[u8]) -> Result<(), SemanticStringError>
        ensures edit { Appended S.StringView R.SemanticStringAccessor bytes.now self.old self.new result }
    {
        let len = self.len();
        self.insert_bytes(len, bytes)
    }

    // Removes the byte at a place and answers it; none, if none stands there.
    pub fn remove(&mut self, idx: usize) -> Result<Option<u8>, SemanticStringError>
        ensures edit { Checked S.StringView R.SemanticStringAccessor (removal idx) self.old self.new result }
    {
        let mut trial = StaticString::copy_of(&self.storage);
        let byte = remove(&mut trial, idx);
        self.check(&trial)?;
        let _ = remove(&mut self.storage, idx);
        Ok(byte)
    }

    // Removes `len` bytes at a place, if so many stand there.
    pub fn remove_range(&mut self, idx: usize, len: usize) -> Result<(), SemanticStringError>
        ensures edit { Checked S.StringView R.SemanticStringAccessor (range_removal idx len) self.old self.new result }
    {
        let mut trial = StaticString::copy_of(&self.storage);
        remove_range(&mut trial, idx, len);
        self.check(&trial)?;
        remove_range(&mut self.storage, idx, len);
        Ok(())
    }

    // Removes the bytes for which the pick says yes.
    pub fn retain<P: Pick>(&mut self, pick: &P) -> Result<(), SemanticStringError>
        ensures edit { Checked S.StringView R.SemanticStringAccessor (retention (P.picked pick.now)) self.old self.new result }
    {
        let mut trial = StaticString::copy_of(&self.storage);
        retain(&mut trial, pick);
        self.check(&trial)?;
        retain(&mut self.storage, pick);
        Ok(())
    }

    // Removes the pattern from the front, if the text starts with it, and answers whether it did.
    #[tactic(auto, using(crate::proofs::Edits::front_strip_is, crate::proofs::Edits::front_strip_short))]
    pub fn strip_prefix(&mut self, bytes: &[u8]) -> Result<bool, SemanticStringError>
        ensures edit { Checked S.StringView R.SemanticStringAccessor (front_strip bytes.now) self.old self.new result }
    {
        let mut trial = StaticString::copy_of(&self.storage);
        let found = strip_prefix(&mut trial, bytes);
        self.check(&trial)?;
        strip_prefix(&mut self.storage, bytes);
        Ok(found)
    }

    // Removes the pattern from the end, if the text ends with it, and answers whether it did.
    #[tactic(auto, using(crate::proofs::Edits::end_strip_is, crate::proofs::Edits::end_strip_short))]
    pub fn strip_suffix(&mut self, bytes: &[u8]) -> Result<bool, SemanticStringError>
        ensures edit { Checked S.StringView R.SemanticStringAccessor (end_strip bytes.now) self.old self.new result }
    {
        let mut trial = StaticString::copy_of(&self.storage);
        let found = strip_suffix(&mut trial, bytes);
        self.check(&trial)?;
        strip_suffix(&mut self.storage, bytes);
        Ok(found)
    }

    // Cuts the text to a length, if that is shorter.
    pub fn truncate(&mut self, new_len: usize) -> Result<(), SemanticStringError>
        ensures edit { Checked S.StringView R.SemanticStringAccessor (truncation new_len) self.old self.new result }
    {
        let mut trial = StaticString::copy_of(&self.storage);
        truncate(&mut trial, new_len);
        self.check(&trial)?;
        truncate(&mut self.storage, new_len);
        Ok(())
    }
}
