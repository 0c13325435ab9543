#![tactic(auto)]

ghost use Rattle.std.specs.Prelude.{◌≡◌, ℕ, ◌≤◌, List, length, if◌then◌else◌};
ghost use Rattle.string_view.specs.Sequences.{inserted, removed, insert_fits, remove_fits, StandsAt};
ghost use Rattle.string_view.specs.Frames.{Kept};

pub mod bytes;
pub mod error;

// A storage: a capacity and a text, a sequence of bytes. Whoever offers one shows all that is written here.
// The text may be longer than the capacity, where a wrapper narrows it.
pub trait StringView {
    // the capacity, which no call changes
    ghost room: { Self → ℕ };

    // the text
    ghost seq: { Self → List ℕ };

    // the lent cells that no call may change
    ghost beyond: { Self → List ℕ };

    // further numbers that no call changes: the ghost names of lent references, how many cells were lent, capacities that a wrapper hides
    ghost fixed: { Self → List ℕ };

    // behind the text stand zeros up to the capacity, or what else a storage promises of itself: every call keeps it
    // where it holds
    ghost closed: { Self → Type 0 };

    fn capacity(&self) -> usize
        ensures answer { result ≡ room self.now };

    fn len(&self) -> usize
        ensures answer { result ≡ length (seq self.now) };

    // The byte at a place below the length, else none.
    fn at(&self, place: usize) -> Option<u8>
        ensures answer { StandsAt (seq self.now) place result };

    // Inserts the bytes at the place, if it lies within the text and they fit; else nothing changes.
    fn put(&mut self, place: usize, bytes: &[u8]) -> bool
        ensures answer { result ≡ insert_fits (room self.old) (seq self.old) place bytes.now }
        ensures text { seq self.new ≡ (if result then inserted place bytes.now (seq self.old) else seq self.old) }
        ensures frame { Kept room beyond fixed closed self.old self.new };

    // Removes `count` bytes at the place, if so many stand there; else nothing changes.
    fn take(&mut self, place: usize, count: usize) -> bool
        ensures answer { result ≡ remove_fits (seq self.old) place count }
        ensures text { seq self.new ≡ (if result then removed place count (seq self.old) else seq self.old) }
        ensures frame { Kept room beyond fixed closed self.old self.new };

    // a capacity, and a text, of at most 255
    ghost small: { (x : Self) → room x ≤ 255 };

    ghost short: { (x : Self) → length (seq x) ≤ 255 };
}
