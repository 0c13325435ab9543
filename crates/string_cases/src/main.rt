// Reads calls, a line each, sends them to one string on each kind of storage, all of capacity 8 and empty at
// first, and writes what they answer and the text that they then hold. The storages have to agree.
#![tactic(auto)]

use narrow::Narrow;
use relocatable_string::RelocatableString;
use static_string::StaticString;

mod answer;
mod call;
mod script;

use answer::{Agreed, Answer};
use call::Call;
use script::{Encoded, decoded};
use string_search::same;

// The same string on each kind of storage.
#[derive(Drop)]
struct Strings<'a> {
    by_value: StaticString,
    lent: RelocatableString<'a>,
    narrowed: Narrow<Narrow<StaticString>>,
}

impl Strings<'_> {
    // Sends a call to each of them, and answers what they all say, if they do.
    fn send(&mut self, call: &Call) -> Option<Answer> {
        let first = call.send(&mut self.by_value)?;
        let second = call.send(&mut self.lent)?;
        let third = call.send(&mut self.narrowed)?;
        (first == second && second == third).then_some(first)
    }

    // Whether they hold the same text.
    fn agree(&self) -> bool {
        same(&self.by_value, &self.lent) && same(&self.lent, &self.narrowed)
    }
}

fn step(rt: &(impl Print + AllocGlobal), strings: &mut Strings, line: &str) -> anyhow::Result<()> {
    let (words, quoted) = line.split_once('"').unwrap_or((line, ""));
    let bytes = decoded(rt.alloc(), quoted.trim_end_matches('"'))?;
    let call = Call::new(words, bytes.as_slice());
    let answer = Agreed(call.and_then(|call| strings.send(&call)));
    let text = Encoded(&strings.by_value);
    let mark = if strings.agree() {
        ""
    } else {
        ", and the storages differ"
    };
    // in one print, so that a line of up to the 1,024 bytes that a print holds is written whole
    println!(rt; "{line} -> {answer}: \"{text}\"{mark}")?;
    Ok(())
}

fn main(rt: HostRuntime) -> anyhow::Result<()> {
    let mut region = [b'#'; 12];
    let mut strings = Strings {
        by_value: StaticString::new(8),
        lent: RelocatableString::new_uninit(8).init(&mut region),
        narrowed: Narrow::new(Narrow::new(StaticString::new(200), 8), 9),
    };
    for line in rt.lines(rt.alloc()) {
        step(&rt, &mut strings, line?.as_str())?;
    }
    Ok(())
}
