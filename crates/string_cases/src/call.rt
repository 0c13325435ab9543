use crate::answer::Answer;
use crate::script::number;
use static_string::StaticString;
use string::pick::{ByteList, ByteRange};
use string::{
    clear, first_bad, insert, insert_bytes, is_empty, is_full, pop, push, push_bytes, remove,
    remove_range, retain, truncate,
};
use string_bytes::utils::strnlen;
use string_bytes::{from_bytes, from_bytes_truncated, from_c_str};
use string_search::{compare, find, rfind, same, strip_prefix, strip_suffix};
use string_view::StringView;

// A call by its word, with the arguments that a line gives. It takes those that it needs.
#[derive(Clone, Copy)]
pub struct Call<'a> {
    word: &'a str,
    first: usize,
    second: usize,
    bytes: &'a [u8],
}

impl<'a> Call<'a> {
    // The call of a line's words, if there are any, with the bytes of its text.
    pub fn new(words: &'a str, bytes: &'a [u8]) -> Option<Call<'a>> {
        let mut words = words.split_whitespace();
        Some(Call {
            word: words.next()?,
            first: number(words.next()),
            second: number(words.next()),
            bytes,
        })
    }
}

impl Call<'_> {
    // What a string answers to the call; none, where no call has the word. Each word stands once, beside what it
    // runs: an enum of them, or a table of closures, would list them a second time or hide the calls' arguments. A
    // question asks a string that it cannot change, so that the words stand in three functions.
    pub fn send<S: StringView>(&self, s: &mut S) -> Option<Answer> {
        self.ask(s).or_else(|| self.fill(s)).or_else(|| self.cut(s))
    }

    // A question of a string.
    fn ask<S: StringView>(&self, s: &S) -> Option<Answer> {
        Some(match self.word {
            "capacity" => s.capacity().into(),
            "len" => s.len().into(),
            "at" => s.at(self.first).into(),
            "is_empty" => is_empty(s).into(),
            "is_full" => is_full(s).into(),
            "find" => find(s, self.bytes).into(),
            "rfind" => rfind(s, self.bytes).into(),
            "same" => same(s, &self.other()).into(),
            "compare" => compare(s, &self.other()).into(),
            // the script's answers have a number here
            "first_bad" => first_bad(self.bytes).unwrap_or(self.bytes.len()).into(),
            "strnlen" => strnlen(self.bytes, self.first).into(),
            _ => return None,
        })
    }

    // The string that one is compared with.
    fn other(&self) -> StaticString {
        let mut other = StaticString::new(255);
        let _ = from_bytes(&mut other, self.bytes);
        other
    }

    // A call that puts bytes into a string.
    fn fill<S: StringView>(&self, s: &mut S) -> Option<Answer> {
        Some(match self.word {
            "put" => s.put(self.first, self.bytes).into(),
            "insert" => insert(s, self.first, low_byte(self.second)).into(),
            "insert_bytes" => insert_bytes(s, self.first, self.bytes).into(),
            "push" => push(s, low_byte(self.first)).into(),
            "push_bytes" => push_bytes(s, self.bytes).into(),
            "from_bytes" => from_bytes(s, self.bytes).into(),
            "from_bytes_truncated" => from_bytes_truncated(s, self.bytes).into(),
            "from_c_str" => from_c_str(s, self.bytes).into(),
            _ => return None,
        })
    }

    // A call that removes bytes from a string.
    fn cut<S: StringView>(&self, s: &mut S) -> Option<Answer> {
        Some(match self.word {
            "take" => s.take(self.first, self.second).into(),
            "remove" => remove(s, self.first).into(),
            "pop" => pop(s).into(),
            "remove_range" => remove_range(s, self.first, self.second).into(),
            "strip_prefix" => strip_prefix(s, self.bytes).into(),
            "strip_suffix" => strip_suffix(s, self.bytes).into(),
            "clear" => clear(s).into(),
            "truncate" => truncate(s, self.first).into(),
            "retain_list" => retain(s, &ByteList { bytes: self.bytes }).into(),
            "retain_range" => retain(s, &self.range()).into(),
            _ => return None,
        })
    }

    // The bytes from the first number to the second.
    fn range(&self) -> ByteRange {
        ByteRange {
            first: low_byte(self.first),
            last: low_byte(self.second),
        }
    }
}

// A number's last eight bits, in the language's own form of a cast that cuts.
fn low_byte(number: usize) -> u8 {
    (number & 0xff) as u8
}
