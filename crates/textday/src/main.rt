// The day of one sail mark: typed in the tent, corrected on the start line, corrected at the finish, and written
// into its slot of the series file; and of the results file's name. Every correction is told, kept or refused, with
// the text as it then stands.
#![tactic(auto)]

use anyhow::ensure;
use file_name::FileName;
use narrow::Narrow;
use path::Path;
use relocatable_string::RelocatableString;
use rules::pair::Pair;
use sail_mark::SailMark;
use semantic_string::SemanticString;
use static_string::StaticString;
use std::io;
use string::pick::ByteList;
use string_bytes::as_bytes_with_nul;
use string_view::StringView;
use string_view::error::Numbered;

mod telling;

use telling::{Refused, Told};

// The longest sail mark on this day: three letters, a blank, and four digits.
const MARK: usize = 8;

// A slot of the series file.
const SLOT: usize = 10;

fn tent<P: Print>(rt: &P) -> anyhow::Result<Told<'_, P, SemanticString<StaticString, SailMark>>> {
    rt.println("tent")?;
    let early = SemanticString::new(StaticString::new(MARK), SailMark, b"GBR");
    if let Err(error) = early {
        println!(rt; "  type GBR: {} no mark yet", Refused(error))?;
    }
    let typed = SemanticString::new(StaticString::new(MARK), SailMark, b"GBR 11");
    let mut mark = Told::set_up(rt, "type GBR 11", typed)?;
    mark.correct("take the last digit back", |mark| mark.pop().map(|_| ()))?;
    mark.correct("paste a curly apostrophe behind GBR", |mark| {
        mark.insert_bytes(3, "\u{2019}".as_bytes())
    })?;
    mark.correct("type 2", |mark| mark.push(b'2'))?;
    Ok(mark)
}

// A borrowed sail is written down, and every kind of wrong correction is refused.
fn start_line<S: StringView>(
    mark: &mut Told<impl Print, SemanticString<S, SailMark>>,
) -> io::Result<()> {
    mark.correct("add 345", |mark| mark.push_bytes(b"345"))?;
    mark.correct("put 3 at place 7", |mark| mark.insert_bytes(7, b"3"))?;
    mark.correct("put Z in front", |mark| mark.insert(0, b'Z'))?;
    mark.correct(
        "sails under the borrowed 1234",
        |mark| mark.push_bytes(b"34"),
    )
}

fn finish<S: StringView>(
    mark: &mut Told<impl Print, SemanticString<S, SailMark>>,
) -> io::Result<()> {
    mark.correct("her own sail again, drop the ending 34", |mark| {
        mark.strip_suffix(b"34")
    })?;
    mark.correct("drop the ending 34", |mark| mark.strip_suffix(b"34"))?;
    mark.correct("drop GBR", |mark| mark.strip_prefix(b"GBR"))?;
    mark.correct("drop both digits", |mark| mark.remove_range(4, 2))?;
    mark.correct("drop two digits at place 5", |mark| mark.remove_range(5, 2))?;
    mark.correct("add 1", |mark| mark.push(b'1'))?;
    mark.correct("add 77", |mark| mark.push_bytes(b"77"))
}

fn series_file<S: StringView>(
    mark: &mut Told<impl Print, SemanticString<S, SailMark>>,
) -> io::Result<()> {
    mark.rt.println("series file")?;
    mark.correct("drop the blank", |mark| {
        mark.retain(&ByteList { bytes: b" " })
    })?;
    let mut slot = [b'#'; SLOT];
    match as_bytes_with_nul(mark.text.as_string(), &mut slot) {
        Ok(count) => println!(mark.rt; "  {count} bytes written: {slot:?}"),
        Err(error) => println!(mark.rt; "  nothing written, refused ({})", error.number()),
    }
}

// Where the mark stands on the sheet, beside another one and beside itself in another spelling.
fn sheet<S: StringView>(
    mark: &Told<impl Print, SemanticString<S, SailMark>>,
) -> anyhow::Result<()> {
    let next = SemanticString::new(StaticString::new(MARK), SailMark, b"gbr 13");
    let next = Told::set_up(mark.rt, "next on the sheet", next)?;
    mark.beside(&next)?;
    let slot = b"gbr 121\0\0";
    let spelt = SemanticString::from_c_str(StaticString::new(MARK), SailMark, slot);
    let spelt = Told::set_up(mark.rt, "from a handheld timer", spelt)?;
    mark.beside(&spelt)?;
    Ok(())
}

fn results_file(rt: &impl Print) -> anyhow::Result<()> {
    rt.println("results file")?;
    let name = SemanticString::new(StaticString::new(12), FileName, b"race-1.csv");
    let mut name = Told::set_up(rt, "name it race-1.csv", name)?;
    name.correct("put a hyphen in front", |name| name.insert(0, b'-'))?;
    name.correct("put a slash at place 4", |name| name.insert(4, b'/'))?;
    name.correct("cut it to nothing", |name| name.truncate(0))?;
    name.correct("add .old", |name| name.push_bytes(b".old"))?;
    name.correct("add b behind the 1", |name| name.insert(6, b'b'))?;

    let typed = SemanticString::new(StaticString::new(20), Path, b"series//day1/");
    let typed = Told::set_up(rt, "into the folder", typed)?;
    let stored = SemanticString::new(StaticString::new(20), Path, b"series/day1");
    let stored = Told::set_up(rt, "which the tablet knows as", stored)?;
    typed.beside(&stored)?;
    Ok(())
}

// A mark that is to serve as a file name too.
fn mark_as_name(rt: &impl Print) -> anyhow::Result<()> {
    let both = Pair {
        first: SailMark,
        second: FileName,
    };
    let mark = SemanticString::new(StaticString::new(MARK), both, b"GBR121");
    let mut mark = Told::set_up(rt, "a mark that names a file", mark)?;
    mark.correct("put a blank behind GBR", |mark| mark.insert(3, b' '))?;
    Ok(())
}

fn day(rt: &impl Print) -> anyhow::Result<()> {
    let typed = tent(rt)?;

    rt.println("start line")?;
    let mut region = [b'#'; 12];
    let announced = RelocatableString::new_uninit(MARK);
    ensure!(announced.fits(&region).is_ok(), "the region is too short");
    let lent = typed.take_over(announced.init(&mut region), SailMark);
    let mut mark = Told::set_up(rt, "take over from the tent", lent)?;
    start_line(&mut mark)?;

    rt.println("finish")?;
    let narrowed = Narrow::new(StaticString::new(255), MARK);
    let narrowed = mark.take_over(narrowed, SailMark);
    let mut mark = Told::set_up(rt, "take over from the start line", narrowed)?;
    finish(&mut mark)?;
    series_file(&mut mark)?;
    sheet(&mark)?;
    results_file(rt)?;
    mark_as_name(rt)?;
    println!(rt; "the lent region: {region:?}")?;
    Ok(())
}

fn main(rt: HostRuntime) -> anyhow::Result<()> {
    day(&rt)
}
