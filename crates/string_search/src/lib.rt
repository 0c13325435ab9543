#![tactic(auto)]

ghost use Rattle.std.specs.Prelude.{◌≡◌, ◌↔◌, IsTrue, length, if◌then◌else◌};
ghost use Rattle.string_view.specs.Sequences.{removed};
ghost use Rattle.string_view.specs.Views.{Frame};
ghost use Rattle.string_search.specs.Order.{first_difference, Compared, TotalOrder};
ghost use Rattle.string_search.specs.Search.{Stands, First, Last, StrippedFront, StrippedEnd};

use std::cmp::Ordering;
use string_view::StringView;
use string_view::bytes::{bytes_from, bytes_of};

// Whether the pattern stands at the place.
fn stands_at<S: StringView>(s: &S, bytes: &[u8], place: usize) -> bool
    ensures { IsTrue result ↔ Stands (S.seq s.now) bytes.now place }
{
    // behind the text not even the empty pattern stands
    place <= s.len()
        && bytes_from(s, place)
            .take(bytes.len())
            .eq(bytes.iter().copied())
}

// The first place at which the pattern stands.
pub fn find<S: StringView>(s: &S, bytes: &[u8]) -> Option<usize>
    ensures answer { First (Stands (S.seq s.now) bytes.now) result }
{
    let last = s.len().checked_sub(bytes.len())?;
    (0..last + 1).find(|place| stands_at(s, bytes, *place))
}

// The last place at which the pattern stands.
pub fn rfind<S: StringView>(s: &S, bytes: &[u8]) -> Option<usize>
    ensures answer { Last (Stands (S.seq s.now) bytes.now) result }
{
    let last = s.len().checked_sub(bytes.len())?;
    (0..last + 1).rfind(|place| stands_at(s, bytes, *place))
}

// Removes the pattern at the place, if it stands there.
fn strip_at<S: StringView>(s: &mut S, bytes: &[u8], place: usize) -> bool
    ensures answer { IsTrue result ↔ Stands (S.seq s.old) bytes.now place }
    ensures text { S.seq s.new ≡ (if result then removed place (length bytes.now) (S.seq s.old) else S.seq s.old) }
    ensures frame { Frame S.StringView s.old s.new }
{
    stands_at(s, bytes, place) && s.take(place, bytes.len())
}

// Removes the pattern from the front, if the text starts with it.
pub fn strip_prefix<S: StringView>(s: &mut S, bytes: &[u8]) -> bool
    ensures text { StrippedFront result (S.seq s.old) bytes.now (S.seq s.new) }
    ensures frame { Frame S.StringView s.old s.new }
{
    // a pattern longer than the text is not looked at
    bytes.len() <= s.len() && strip_at(s, bytes, 0)
}

// Removes the pattern from the end, if the text ends with it.
pub fn strip_suffix<S: StringView>(s: &mut S, bytes: &[u8]) -> bool
    ensures text { StrippedEnd result (S.seq s.old) bytes.now (S.seq s.new) }
    ensures frame { Frame S.StringView s.old s.new }
{
    let len = s.len();
    bytes.len() <= len && strip_at(s, bytes, len - bytes.len())
}

// The two bytes at the first place at which two texts differ; none, where one is a start of the other.
fn first_difference<S: StringView, T: StringView>(a: &S, b: &T) -> Option<(u8, u8)>
    ensures { result ≡ first_difference (S.seq a.now) (T.seq b.now) }
{
    bytes_of(a).zip(bytes_of(b)).find(|(x, y)| x != y)
}

// The order of two texts by their bytes. A proper start comes first.
pub fn compare<S: StringView, T: StringView>(a: &S, b: &T) -> Ordering
    ensures answer { Compared (S.seq a.now) (T.seq b.now) result }
    ensures total { TotalOrder }
{
    // `cmp` of the iterators would ask of each byte which of three it is, in three times the code
    match first_difference(a, b) {
        Some((x, y)) => x.cmp(&y),
        None => a.len().cmp(&b.len()),
    }
}

// Whether two texts are the same.
pub fn same<S: StringView, T: StringView>(a: &S, b: &T) -> bool
    ensures answer { IsTrue result ↔ (S.seq a.now ≡ T.seq b.now) }
{
    a.len() == b.len() && bytes_of(a).eq(bytes_of(b))
}
