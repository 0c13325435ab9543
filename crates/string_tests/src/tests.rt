use crate::counted::{Counted, push_then_remove};
use narrow::Narrow;
use relocatable_string::RelocatableString;
use static_string::StaticString;
use string::is_full;
use string_bytes::{as_bytes, as_bytes_with_nul};
use string_view::StringView;
use string_view::error::{BufferTooShort, Numbered, RegionTooShort, StringModificationError};

#[test]
fn capacities(rt: HostRuntime) {
    assert_eq!(rt; StaticString::new(0).capacity(), 0);
    assert_eq!(rt; StaticString::new(255).capacity(), 255);
    assert_eq!(rt; StaticString::new(usize::MAX).capacity(), 255);
    assert_eq!(rt; RelocatableString::memory_size(0), 1);
    assert_eq!(rt; RelocatableString::const_memory_size(255), 256);
    assert_eq!(rt; RelocatableString::const_memory_size(usize::MAX), 256);
}

#[test]
fn a_string_of_255(rt: HostRuntime) {
    let mut s = Narrow::new(StaticString::new(1000), 300);
    assert_eq!(rt; s.put(0, &[b'a'; 255]), true);
    assert_eq!(rt; s.put(255, b"b"), false);
    assert_eq!(rt; s.take(1, 253), true);
    assert_eq!(rt; s.len(), 2);
}

// Narrowed below its text, a storage cuts nothing and takes no more.
#[test]
fn narrowed_below_the_text(rt: HostRuntime) {
    let mut below = StaticString::new(8);
    assert_eq!(rt; below.put(0, b"GBR 12"), true);
    let mut s = Narrow::new(below, 3);
    assert_eq!(rt; is_full(&s), true);
    assert_eq!(rt; s.len(), 6);
    assert_eq!(rt; s.put(6, b""), false);
    assert_eq!(rt; s.take(3, 3), true);
    assert_eq!(rt; s.put(3, b""), true);
    assert_eq!(rt; s.put(3, b"7"), false);
    assert_eq!(rt; s.into_inner().capacity(), 8);
}

// Every cell of a region: text, zeros up to cell number capacity, and the owner's own.
#[test]
fn cells_of_a_region(rt: HostRuntime) {
    let mut region = [7u8; 8];
    let mut s = RelocatableString::new_uninit(4).init(&mut region);
    assert!(rt; s.cells() == [0, 0, 0, 0, 0, 7, 7, 7].as_slice());
    assert_eq!(rt; s.put(0, b"abcd"), true);
    assert!(rt; s.cells() == [b'a', b'b', b'c', b'd', 0, 7, 7, 7].as_slice());
    assert_eq!(rt; s.take(1, 2), true);
    assert!(rt; region == [b'a', b'd', 0, 0, 0, 7, 7, 7]);
}

// A count that was right at first is right after plain calls.
#[test]
fn a_counted_text(rt: HostRuntime) {
    let mut s = Counted {
        inner: StaticString::new(4),
        count: 0,
    };
    assert_eq!(rt; s.put(0, b"GBR"), true);
    assert_eq!(rt; push_then_remove(&mut s, b'7', 1, 2), true);
    assert_eq!(rt; s.capacity(), 4);
    assert_eq!(rt; s.len(), 2);
    assert_eq!(rt; s.at(1), Some(b'7'));
    assert_eq!(rt; s.count, 2);
    assert_eq!(rt; push_then_remove(&mut s, 0, 0, 2), false);
    assert_eq!(rt; s.count, 2);
}

// A string in too short a region has the capacity 0 and leaves it alone.
#[test]
fn too_short_a_region(rt: HostRuntime) {
    let mut region = [7u8; 4];
    let announced = RelocatableString::new_uninit(4);
    assert_eq!(rt; announced.fits(&region), Err(RegionTooShort));
    assert_eq!(rt; announced.fits(&[0; 5]), Ok(()));
    let mut s = announced.init(&mut region);
    assert_eq!(rt; s.capacity(), 0);
    assert_eq!(rt; s.put(0, b"a"), false);
    assert_eq!(rt; s.put(0, b""), true);
    assert_eq!(rt; s.take(0, 0), true);
    assert!(rt; region == [7; 4]);
}

// A full string.
fn full_of_gbr() -> StaticString {
    let mut s = StaticString::new(3);
    s.put(0, b"GBR");
    s
}

#[test]
fn buffers(rt: HostRuntime) {
    let s = full_of_gbr();
    let mut buffer = [7u8; 5];
    assert_eq!(rt; as_bytes(&s, &mut buffer[0..2]), Err(BufferTooShort));
    assert!(rt; buffer == [7; 5]);
    assert_eq!(rt; as_bytes(&s, &mut buffer[0..3]), Ok(3));
    assert!(rt; buffer == [b'G', b'B', b'R', 7, 7]);
}

#[test]
fn buffers_with_nul(rt: HostRuntime) {
    let s = full_of_gbr();
    let mut buffer = [7u8; 5];
    assert_eq!(rt;
        as_bytes_with_nul(&s, &mut buffer[0..3]),
        Err(BufferTooShort)
    );
    assert!(rt; buffer == [7; 5]);
    assert_eq!(rt; as_bytes_with_nul(&s, &mut buffer), Ok(4));
    assert!(rt; buffer == [b'G', b'B', b'R', 0, 7]);
}

#[test]
fn numbers(rt: HostRuntime) {
    assert_eq!(rt;
        StringModificationError::InsertWouldExceedCapacity.number(),
        1
    );
    assert_eq!(rt;
        StringModificationError::InvalidCharacter { place: 9 }.number(),
        2
    );
    assert_eq!(rt; StringModificationError::PositionOutOfRange.number(), 3);
    assert_eq!(rt; RegionTooShort.number(), 8);
    assert_eq!(rt; BufferTooShort.number(), 9);
}
