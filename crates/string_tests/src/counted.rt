ghost use Rattle.std.specs.Prelude.{◌≡◌, length};

use string::{push, remove_range};
use string_view::StringView;

// What `closed` of a storage is for, by an example: a storage such as another author might offer, which keeps beside any
// other how many bytes its text has. Whoever makes one sets the count, so that it may be wrong, and the type cannot hold
// that it is right; but where it is right, each call keeps it so.
#[derive(Drop)]
pub struct Counted<S> {
    pub inner: S,
    pub count: usize,
}

impl<S: StringView> StringView for Counted<S> {
    ghost room = { λ s. S.room s.inner };

    ghost seq = { λ s. S.seq s.inner };

    ghost beyond = { λ s. S.beyond s.inner };

    ghost fixed = { λ s. S.fixed s.inner };

    ghost closed = { λ s. s.count ≡ length (S.seq s.inner) };

    ghost small = { λ s. S.small s.inner };

    ghost short = { λ s. S.short s.inner };

    fn capacity(&self) -> usize {
        self.inner.capacity()
    }

    fn len(&self) -> usize {
        self.inner.len()
    }

    fn at(&self, place: usize) -> Option<u8> {
        self.inner.at(place)
    }

    fn put(&mut self, place: usize, bytes: &[u8]) -> bool {
        if !self.inner.put(place, bytes) {
            return false;
        }
        // a wrong count may be any number
        self.count = self.count.saturating_add(bytes.len());
        true
    }

    fn take(&mut self, place: usize, count: usize) -> bool {
        if !self.inner.take(place, count) {
            return false;
        }
        self.count = self.count.saturating_sub(count);
        true
    }
}

// Two plain calls, which know of no count: that a right one stays right is known by their frame alone.
pub fn push_then_remove<S: StringView>(s: &mut Counted<S>, byte: u8, idx: usize, len: usize) -> bool
    ensures count { s.old.count ≡ length (S.seq s.old.inner) → s.new.count ≡ length (S.seq s.new.inner) }
{
    push(s, byte).is_ok() && remove_range(s, idx, len)
}
