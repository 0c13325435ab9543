#![tactic(auto)]

ghost use Rattle.std.specs.Prelude.{◌≡◌, ◌∷◌, min};
ghost use Rattle.narrow.specs.Bounds.{min_small};

use string_view::StringView;

// A storage with a smaller capacity, over any other. It holds the text of the one below, also where that is
// longer than its capacity: it then cuts nothing, and takes no more.
#[derive(Drop)]
pub struct Narrow<S> {
    inner: S,
    n: usize,
}

impl<S> Narrow<S> {
    // The storage at a capacity of at most `n`.
    pub fn new(inner: S, n: usize) -> Narrow<S>
        ensures inner { result.inner ≡ inner }
        ensures n { result.n ≡ n }
    {
        Narrow { inner, n }
    }

    // The storage below.
    pub fn into_inner(self) -> S
        ensures answer { result ≡ self.inner }
    {
        self.inner
    }
}

impl<S: StringView> StringView for Narrow<S> {
    ghost room = { λ s. min s.n (S.room s.inner) };

    ghost seq = { λ s. S.seq s.inner };

    ghost beyond = { λ s. S.beyond s.inner };

    ghost fixed = { λ s. s.n ∷ (S.room s.inner ∷ S.fixed s.inner) };

    ghost closed = { λ s. S.closed s.inner };

    ghost small = { λ s. min_small s.n (S.room s.inner) (S.small s.inner) };

    ghost short = { λ s. S.short s.inner };

    fn capacity(&self) -> usize {
        self.n.min(self.inner.capacity())
    }

    fn len(&self) -> usize {
        self.inner.len()
    }

    fn at(&self, place: usize) -> Option<u8> {
        self.inner.at(place)
    }

    fn put(&mut self, place: usize, bytes: &[u8]) -> bool {
        let len = self.inner.len();
        if len > self.n || bytes.len() > self.n - len {
            return false;
        }
        self.inner.put(place, bytes)
    }

    fn take(&mut self, place: usize, count: usize) -> bool {
        self.inner.take(place, count)
    }
}
