#![tactic(auto)]

ghost use Rattle.std.specs.Prelude.{◌≡◌, ◌+◌, ◌≤◌, min, [], ◌∷◌, length, drop, if◌then◌else◌};
ghost use Rattle.relocatable_string.specs.Region.{needed, enough, used, room_in, closed_in, wiped, laid_out};

use cells::{insert_into, remove_from};
use string_view::StringView;
use string_view::error::RegionTooShort;

// A string that is announced and has no region yet. It has no text to edit: `init` makes it a string.
#[derive(Drop)]
pub struct RelocatableStringUninit {
    capacity: u8,
    pub ghost small: { capacity ≤ 255 },
}

// A string in cells that its owner lends. Its first cells hold the text, the others up to cell number
// `capacity` are zero, and later ones are not touched. Where the region is too short for the announced
// capacity, the capacity is 0 and no cell is touched.
#[derive(Drop)]
pub struct RelocatableString<'a> {
    region: &'a mut [u8],
    capacity: u8,
    len: u8,
    pub ghost small: { capacity ≤ 255 },
    pub ghost within: { len ≤ room_in capacity (length region.now) },
    pub ghost closed: { closed_in capacity len region.now },
}

impl RelocatableString<'_> {
    ghost use Rattle.relocatable_string.specs.Relocatable.{announced, cells_of, text_of, used_of, beyond_of};

    // Announces a string. A capacity above 255 becomes 255.
    pub fn new_uninit(capacity: usize) -> RelocatableStringUninit
        ensures answer { announced result ≡ min capacity 255 }
    {
        RelocatableStringUninit {
            capacity: capacity.min(255) as u8,
        }
    }

    // How many cells a string of a capacity needs: one more than it, for the closing zero.
    pub const fn const_memory_size(capacity: usize) -> usize
        ensures answer { result ≡ needed (min capacity 255) }
    {
        // `min` is no `const fn`
        if capacity < 255 { capacity + 1 } else { 256 }
    }

    // As `const_memory_size`.
    pub fn memory_size(capacity: usize) -> usize
        ensures answer { result ≡ needed (min capacity 255) }
    {
        Self::const_memory_size(capacity)
    }

    // The whole region: the text, zeros up to cell number `capacity`, and what lies beyond.
    pub fn cells(&self) -> &[u8]
        ensures cells { result.now ≡ cells_of self.now }
        ensures layout { result.now ≡ laid_out (used_of self.now) (text_of self.now) (beyond_of self.now) }
    {
        self.region
    }
}

impl RelocatableStringUninit {
    ghost use Rattle.string_view.specs.Checks.{first_fail, answered};
    ghost use Rattle.string_view.specs.Refusals.{region_told};
    ghost use Rattle.relocatable_string.specs.Relocatable.{announced, cells_of, room_of, text_of, beyond_of, fixed_of, closed_of};

    // Whether a region has the cells that `init` needs.
    pub fn fits(&self, region: &[u8]) -> Result<(), RegionTooShort>
        ensures answer { answered region_told result ≡ first_fail tt (enough (announced self.now) region.now ∷ []) }
    {
        if (self.capacity as usize) < region.len() {
            Ok(())
        } else {
            Err(RegionTooShort)
        }
    }

    // Gives the announced string its region, and makes the cells zero that it uses.
    pub fn init<'a>(self, region: &'a mut [u8]) -> RelocatableString<'a>
        ensures room { room_of result ≡ room_in (announced self) (length region.old) }
        ensures text { text_of result ≡ [] }
        ensures cells { cells_of result ≡ wiped (announced self) region.old }
        ensures beyond { beyond_of result ≡ drop (used (announced self) (length region.old)) region.old }
        ensures fixed { fixed_of result ≡ region.entry.ghost_name ∷ (length region.old ∷ (announced self ∷ [])) }
        ensures closed { closed_of result }
    {
        let end = self.capacity as usize + 1;
        if end <= region.len() {
            region[..end].fill(0);
        }
        RelocatableString {
            region,
            capacity: self.capacity,
            len: 0,
        }
    }
}

// Beside StaticString's calls, the reason stands there.
impl<'a> StringView for RelocatableString<'a> {
    ghost use Rattle.cells.specs.Texts.{inserting, removing};
    ghost use Rattle.string_view.specs.Frames.{Kept};
    ghost use Rattle.string_view.specs.Sequences.{inserted, removed, insert_fits, remove_fits};
    ghost use Rattle.relocatable_string.specs.Relocatable.{cells_of, room_of, text_of, beyond_of, fixed_of, closed_of, is_small, is_short};

    ghost room = { room_of };

    ghost seq = { text_of };

    ghost beyond = { beyond_of };

    ghost fixed = { fixed_of };

    ghost closed = { closed_of };

    ghost small = { is_small };

    ghost short = { is_short };

    fn capacity(&self) -> usize {
        let capacity = self.capacity as usize;
        if capacity < self.region.len() {
            capacity
        } else {
            0
        }
    }

    fn len(&self) -> usize {
        self.len as usize
    }

    fn at(&self, place: usize) -> Option<u8> {
        let text = &self.region[..self.len()];
        text.get(place).copied()
    }

    // As the trait has it, and every cell of the region.
    fn put(&mut self, place: usize, bytes: &[u8]) -> bool
        ensures answer { result ≡ insert_fits (room_of self.old) (text_of self.old) place bytes.now }
        ensures text { text_of self.new ≡ (if result then inserted place bytes.now (text_of self.old) else text_of self.old) }
        ensures frame { Kept room_of beyond_of fixed_of closed_of self.old self.new }
        ensures cells { cells_of self.new ≡ (if result then inserting (length (text_of self.old)) place bytes.now (cells_of self.old) else cells_of self.old) }
    {
        let capacity = self.capacity();
        if !insert_into(self.region, capacity, self.len as usize, place, bytes) {
            return false;
        }
        self.len += bytes.len() as u8;
        true
    }

    // As the trait has it, and every cell of the region.
    fn take(&mut self, place: usize, count: usize) -> bool
        ensures answer { result ≡ remove_fits (text_of self.old) place count }
        ensures text { text_of self.new ≡ (if result then removed place count (text_of self.old) else text_of self.old) }
        ensures frame { Kept room_of beyond_of fixed_of closed_of self.old self.new }
        ensures cells { cells_of self.new ≡ (if result then removing (length (text_of self.old)) place count (cells_of self.old) else cells_of self.old) }
    {
        if !remove_from(self.region, self.len as usize, place, count) {
            return false;
        }
        self.len -= count as u8;
        true
    }
}
