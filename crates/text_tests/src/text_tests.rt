use crate::OneOf;
use file_name::FileName;
use narrow::Narrow;
use path::Path;
use relocatable_string::RelocatableString;
use rules::SemanticStringAccessor;
use sail_mark::SailMark;
use semantic_string::SemanticString;
use semantic_string::error::SemanticStringError;
use static_string::StaticString;
use std::cmp::Ordering;
use std::process::Abort;
use string::pick::{ByteList, ByteRange};
use string_view::StringView;
use string_view::error::{BufferTooShort, Numbered, StringModificationError};

// A full string, and a byte that is no character, as a text tells them.
const FULL: SemanticStringError = SemanticStringError::ExceedsMaximumLength(
    StringModificationError::InsertWouldExceedCapacity,
);

const STRANGE: SemanticStringError = SemanticStringError::ExceedsMaximumLength(
    StringModificationError::InvalidCharacter { place: 1 },
);

const INVALID: SemanticStringError = SemanticStringError::InvalidContent;

const BEYOND: SemanticStringError = SemanticStringError::PositionOutOfRange;

// The text is the bytes, as `as_bytes` writes them, and no cell behind them is written.
fn reads<S: StringView, R: SemanticStringAccessor>(
    rt: &impl Abort,
    text: &SemanticString<S, R>,
    bytes: &[u8],
) {
    let mut buffer = [b'#'; 255];
    assert!(rt; text.as_bytes(&mut buffer).is_ok());
    assert!(rt; text.len() == bytes.len() && bytes.len() < 255);
    assert!(rt; &buffer[0..bytes.len()] == bytes);
    assert!(rt; buffer[bytes.len()] == b'#');
}

// Insertions into a mark on a storage of capacity 8.
fn insertions<S: StringView + Drop>(
    rt: &impl Abort,
    storage: S,
) -> Result<(), SemanticStringError> {
    let mut mark = SemanticString::new(storage, SailMark, b"GBR 12")?;
    assert_eq!(rt; mark.insert_bytes(6, b"345"), Err(FULL));
    assert_eq!(rt; mark.insert_bytes(7, b"3"), Err(BEYOND));
    assert_eq!(rt; mark.insert(0, b'Z'), Err(INVALID));
    assert_eq!(rt; mark.insert_bytes(6, &[b'3', 200]), Err(STRANGE));
    assert_eq!(rt; mark.push_bytes(&[b'3', 0]), Err(STRANGE));
    assert_eq!(rt; mark.push(b' '), Err(INVALID));
    assert_eq!(rt; mark.insert(usize::MAX, 0), Err(BEYOND));
    assert_eq!(rt; mark.push_bytes(&[b'3', 0, b'3']), Err(FULL));
    reads(rt, &mark, b"GBR 12");
    assert_eq!(rt; mark.insert_bytes(6, b"34"), Ok(()));
    reads(rt, &mark, b"GBR 1234");
    assert_eq!(rt; mark.push(b'5'), Err(FULL));
    assert_eq!(rt; mark.push_bytes(b""), Ok(()));
    assert!(rt; mark.is_full() && mark.capacity() == 8);
    reads(rt, &mark, b"GBR 1234");
    Ok(())
}

// Removals from a mark on a storage of capacity 8.
fn removals<S: StringView + Drop>(rt: &impl Abort, storage: S) -> Result<(), SemanticStringError> {
    let mut mark = SemanticString::new(storage, SailMark, b"GBR 1211")?;
    assert_eq!(rt; mark.remove(8), Ok(None));
    assert_eq!(rt; mark.remove(7), Ok(Some(b'1')));
    assert_eq!(rt; mark.remove(0), Err(INVALID));
    assert_eq!(rt; mark.remove_range(4, 3), Err(INVALID));
    assert_eq!(rt; mark.remove_range(4, 4), Ok(()));
    assert_eq!(rt; mark.truncate(4), Err(INVALID));
    assert_eq!(rt; mark.truncate(255), Ok(()));
    assert_eq!(rt; mark.strip_prefix(b"IRL"), Ok(false));
    assert_eq!(rt; mark.strip_prefix(b"G"), Err(INVALID));
    reads(rt, &mark, b"GBR 121");
    assert_eq!(rt; mark.strip_suffix(b"1"), Ok(true));
    reads(rt, &mark, b"GBR 12");
    assert_eq!(rt; mark.retain(&ByteList { bytes: b"1 " }), Ok(()));
    reads(rt, &mark, b"GBR2");
    let digits = ByteRange {
        first: b'0',
        last: b'9',
    };
    assert_eq!(rt; mark.retain(&digits), Err(INVALID));
    assert_eq!(rt; mark.pop(), Err(INVALID));
    reads(rt, &mark, b"GBR2");
    assert_eq!(rt; mark.push_bytes(b"34"), Ok(()));
    assert_eq!(rt; mark.pop(), Ok(Some(b'4')));
    assert_eq!(rt; mark.truncate(4), Ok(()));
    reads(rt, &mark, b"GBR2");
    Ok(())
}

// Questions of a path on a storage of capacity 8.
fn questions<S: StringView + Drop>(rt: &impl Abort, storage: S) -> Result<(), SemanticStringError> {
    let path = SemanticString::new(storage, Path, b"a//b//")?;
    assert_eq!(rt; path.find(b"//"), Some(1));
    assert_eq!(rt; path.rfind(b"//"), Some(4));
    assert_eq!(rt; path.rfind(b"c"), None);
    assert!(rt; !path.is_empty() && !path.is_full());
    assert_eq!(rt; path.as_string().at(3), Some(b'b'));
    let mut buffer = [b'#'; 4];
    assert_eq!(rt; path.as_bytes(&mut buffer), Err(BufferTooShort));
    assert_eq!(rt; path.normalize(&mut buffer[0..2]), Err(BufferTooShort));
    assert!(rt; buffer == [b'#'; 4]);
    assert_eq!(rt; path.normalize(&mut buffer), Ok(3));
    assert!(rt; buffer == [b'a', b'/', b'b', b'#']);
    let other = SemanticString::new(StaticString::new(3), Path, b"a/b")?;
    assert!(rt; path.same(&other) && other.same(&path));
    assert!(rt; path.compare(&other) == Ordering::Equal);
    let longer = SemanticString::new(StaticString::new(4), Path, b"a/bc")?;
    assert!(rt; !path.same(&longer));
    assert!(rt; path.compare(&longer) == Ordering::Less);
    assert!(rt; longer.compare(&path) == Ordering::Greater);
    Ok(())
}

// What a caller may write: a struct without bounds that holds a text on a narrowed storage, and a closure on any text.
#[derive(Drop)]
struct Card<S, R> {
    mark: SemanticString<Narrow<S>, R>,
}

fn correct<
    S: StringView,
    R: SemanticStringAccessor,
    F: FnOnce(&mut SemanticString<S, R>) -> Result<(), SemanticStringError>,
>(text: &mut SemanticString<S, R>, correction: F) -> Result<(), SemanticStringError>
    requires { F.IsAlwaysCallable correction }
{
    correction(text)
}

#[test]
fn by_value(rt: HostRuntime) -> Result<(), SemanticStringError> {
    insertions(&rt, StaticString::new(8))?;
    removals(&rt, StaticString::new(8))?;
    questions(&rt, StaticString::new(8))
}

#[test]
fn in_a_region(rt: HostRuntime) -> Result<(), SemanticStringError> {
    let mut region = [b'#'; 10];
    insertions(&rt, RelocatableString::new_uninit(8).init(&mut region))?;
    removals(&rt, RelocatableString::new_uninit(8).init(&mut region))?;
    assert!(rt; region == [b'G', b'B', b'R', b'2', 0, 0, 0, 0, 0, b'#']);
    questions(&rt, RelocatableString::new_uninit(8).init(&mut region))
}

// A storage that held another text is emptied first.
#[test]
fn narrowed(rt: HostRuntime) -> Result<(), SemanticStringError> {
    let mut long = StaticString::new(200);
    assert!(rt; long.put(0, b"whatever stood here"));
    insertions(&rt, Narrow::new(Narrow::new(long, 9), 8))?;
    removals(&rt, Narrow::new(long, 8))?;
    let mut region = [b'#'; 20];
    questions(
        &rt,
        Narrow::new(RelocatableString::new_uninit(18).init(&mut region), 8),
    )
}

#[test]
fn held_and_handed_on(rt: HostRuntime) -> Result<(), SemanticStringError> {
    let storage = Narrow::new(StaticString::new(200), 8);
    let mark = SemanticString::new(storage, SailMark, b"GBR 12")?;
    let mut card = Card { mark };
    assert_eq!(rt;
        correct(&mut card.mark, |mark| mark.push_bytes(b"34")),
        Ok(())
    );
    assert_eq!(rt; correct(&mut card.mark, |mark| mark.push(b'5')), Err(FULL));
    assert_eq!(rt;
        correct(&mut card.mark, |mark| mark.truncate(4)),
        Err(INVALID)
    );
    reads(&rt, &card.mark, b"GBR 1234");
    Ok(())
}

#[test]
fn set_ups(rt: HostRuntime) {
    let short = StaticString::new(3);
    assert_eq!(rt;
        SemanticString::new(short, FileName, b"a.b").map(drop),
        Ok(())
    );
    assert_eq!(rt;
        SemanticString::new(short, FileName, b"").map(drop),
        Err(INVALID)
    );
    assert_eq!(rt;
        SemanticString::new(short, FileName, b"..").map(drop),
        Err(INVALID)
    );
    assert_eq!(rt;
        SemanticString::new(short, FileName, b"a b").map(drop),
        Err(INVALID)
    );
    assert_eq!(rt;
        SemanticString::new(short, FileName, &[b'-', 128]).map(drop),
        Err(STRANGE)
    );
    assert_eq!(rt;
        SemanticString::new(short, FileName, &[b'-', 128, 0, 0]).map(drop),
        Err(FULL)
    );
}

#[test]
fn slots(rt: HostRuntime) -> Result<(), SemanticStringError> {
    let short = StaticString::new(3);
    assert_eq!(rt;
        SemanticString::from_c_str(short, FileName, b"abcd\0").map(drop),
        Err(FULL)
    );
    assert_eq!(rt;
        SemanticString::from_c_str(short, FileName, b"..\0d").map(drop),
        Err(INVALID)
    );
    assert_eq!(rt;
        SemanticString::from_c_str(short, FileName, b"\0bcd").map(drop),
        Err(INVALID)
    );
    let name = SemanticString::from_c_str(short, FileName, b"abc\0..")?;
    reads(&rt, &name, b"abc");
    let unended = SemanticString::from_c_str(short, FileName, b"ab")?;
    reads(&rt, &unended, b"ab");
    Ok(())
}

// A long pattern of which nothing would be left.
#[test]
fn long_strips(rt: HostRuntime) -> Result<(), SemanticStringError> {
    let letters = [b'a'; 124];
    let mut name = SemanticString::new(StaticString::new(255), FileName, &letters)?;
    assert_eq!(rt; name.strip_prefix(&letters), Err(INVALID));
    assert_eq!(rt; name.strip_suffix(&letters), Err(INVALID));
    assert_eq!(rt; name.len(), 124);
    assert_eq!(rt; name.strip_suffix(&letters[0..123]), Ok(true));
    reads(&rt, &name, b"a");
    Ok(())
}

// A region whose capacity is 0 holds no mark, and holds the empty text where the rule allows that.
#[test]
fn a_rule_that_borrows(rt: HostRuntime) -> Result<(), SemanticStringError> {
    let allowed = [b'x', b'y'];
    let rule = OneOf { bytes: &allowed };
    let mut region = [b'#'; 3];
    let none = RelocatableString::new_uninit(8).init(&mut region);
    let mut text = SemanticString::new(none, rule, b"")?;
    assert_eq!(rt; text.pop(), Ok(None));
    assert_eq!(rt; text.push(b'x'), Err(FULL));
    assert!(rt; region == [b'#'; 3]);
    let mut other = SemanticString::new(StaticString::new(8), rule, b"x")?;
    assert_eq!(rt; other.push(b'y'), Err(INVALID));
    assert_eq!(rt; other.insert(0, b'z'), Err(INVALID));
    assert_eq!(rt; other.pop(), Ok(Some(b'x')));
    assert_eq!(rt; other.push(b'y'), Ok(()));
    reads(&rt, &other, b"y");
    Ok(())
}

#[test]
fn numbers(rt: HostRuntime) {
    assert_eq!(rt; SemanticStringError::InvalidContent.number(), 4);
    assert_eq!(rt; SemanticStringError::PositionOutOfRange.number(), 3);
    let full = StringModificationError::InsertWouldExceedCapacity;
    assert_eq!(rt; SemanticStringError::ExceedsMaximumLength(full).number(), 5);
    assert_eq!(rt;
        SemanticStringError::from(full),
        SemanticStringError::ExceedsMaximumLength(full)
    );
    let strange = StringModificationError::InvalidCharacter { place: 3 };
    assert_eq!(rt;
        SemanticStringError::from(strange),
        SemanticStringError::InvalidContent
    );
}
