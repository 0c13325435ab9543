#![tactic(auto)]

ghost use Rattle.std.specs.Prelude.{◌≡◌, ◌≤◌, min, max, [], length};

use cells::{insert_into, remove_from};
use string_view::StringView;
use string_view::bytes::copy_bytes;

// A string that keeps its bytes by value.
#[derive(Clone, Copy)]
pub struct StaticString {
    data: [u8; 255],
    capacity: u8,
    len: u8,
    pub ghost small: { capacity ≤ 255 },
    pub ghost within: { len ≤ capacity },
}

impl StaticString {
    ghost use Rattle.static_string.specs.Fixed.{room_of, text_of};

    // An empty string. A capacity above 255 becomes 255.
    pub fn new(capacity: usize) -> StaticString
        ensures room { room_of result ≡ min capacity 255 }
        ensures text { text_of result ≡ [] }
    {
        StaticString {
            data: [0; 255],
            capacity: capacity.min(255) as u8,
            len: 0,
        }
    }

    // A copy of any storage: its text, and its capacity, or the text's length where that is more.
    pub fn copy_of<S: StringView>(s: &S) -> StaticString
        ensures room { room_of result ≡ max (S.room s.now) (length (S.seq s.now)) }
        ensures text { text_of result ≡ S.seq s.now }
    {
        let len = s.len();
        let mut data = [0; 255];
        copy_bytes(s, &mut data);
        StaticString {
            data,
            capacity: s.capacity().max(len) as u8,
            len: len as u8,
        }
    }

    // The text.
    pub fn as_slice(&self) -> &[u8]
        ensures text { result.now ≡ text_of self.now }
    {
        &self.data[..self.len as usize]
    }
}

// Each call is the line or two above `insert_into`, `remove_from` and `get` that a lent string has too; a trait for whose
// the cells are would be longer.
impl StringView for StaticString {
    ghost use Rattle.static_string.specs.Fixed.{room_of, text_of, is_small, is_short};

    ghost room = { room_of };

    ghost seq = { text_of };

    ghost beyond = { λ _. [] };

    ghost fixed = { λ _. [] };

    ghost closed = { λ _. Unit {0} };

    ghost small = { is_small };

    ghost short = { is_short };

    fn capacity(&self) -> usize {
        self.capacity as usize
    }

    fn len(&self) -> usize {
        self.len as usize
    }

    fn at(&self, place: usize) -> Option<u8> {
        self.as_slice().get(place).copied()
    }

    fn put(&mut self, place: usize, bytes: &[u8]) -> bool {
        let capacity = self.capacity();
        if !insert_into(&mut self.data, capacity, self.len as usize, place, bytes) {
            return false;
        }
        self.len += bytes.len() as u8;
        true
    }

    fn take(&mut self, place: usize, count: usize) -> bool {
        if !remove_from(&mut self.data, self.len as usize, place, count) {
            return false;
        }
        self.len -= count as u8;
        true
    }
}
