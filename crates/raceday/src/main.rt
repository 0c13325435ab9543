// The day of one sail mark: typed in the tent, corrected on the start line, corrected at the finish, and written
// into its slot of the series file. Every correction is told, kept or refused, with the mark as it then stands.
#![tactic(auto)]

use anyhow::ensure;
use narrow::Narrow;
use relocatable_string::RelocatableString;
use static_string::StaticString;
use std::io;
use string::pick::ByteList;
use string::{insert_bytes, pop, push, push_bytes, remove_range, retain};
use string_bytes::{as_bytes_with_nul, from_bytes};
use string_search::{compare, strip_suffix};
use string_view::StringView;

mod telling;

use telling::{Place, Refused, Told};

// The longest sail mark: three letters, a blank, and four digits.
const MARK: usize = 8;

// A slot of the series file.
const SLOT: usize = 10;

fn tent(mark: &mut Told<impl Print, StaticString>) -> io::Result<()> {
    mark.rt.println("tent")?;
    mark.correct("type GBR 11", |mark| from_bytes(mark, b"GBR 11"))?;
    mark.correct("take the last digit back", |mark| pop(mark).is_some())?;
    mark.correct("paste a curly apostrophe behind GBR", |mark| {
        insert_bytes(mark, 3, "\u{2019}".as_bytes())
    })?;
    mark.correct("type 2", |mark| push(mark, b'2'))
}

fn start_line(
    mark: &mut Told<impl Print, RelocatableString>,
    typed: &StaticString,
) -> io::Result<()> {
    mark.rt.println("start line")?;
    mark.correct("take over from the tent", |mark| {
        from_bytes(mark, typed.as_slice())
    })?;
    mark.correct("add 345", |mark| push_bytes(mark, b"345"))?;
    mark.correct("put 3 at place 7", |mark| insert_bytes(mark, 7, b"3"))?;
    mark.correct("add 34", |mark| push_bytes(mark, b"34"))
}

fn finish<S: StringView>(mark: &mut Told<impl Print, S>) -> io::Result<()> {
    mark.rt.println("finish")?;
    mark.correct("drop the ending 34", |mark| strip_suffix(mark, b"34"))?;
    mark.correct("drop the ending 34", |mark| strip_suffix(mark, b"34"))?;
    mark.correct("drop two digits at place 5", |mark| {
        remove_range(mark, 5, 2)
    })?;
    mark.correct("add 1", |mark| push_bytes(mark, b"1"))?;
    mark.correct("add 7", |mark| push(mark, b'7'))
}

fn series_file<S: StringView>(mark: &mut Told<impl Print, S>) -> io::Result<()> {
    mark.rt.println("series file")?;
    mark.correct("drop the blank", |mark| {
        retain(mark, &ByteList { bytes: b" " });
        true
    })?;
    let mut slot = [b'#'; SLOT];
    match as_bytes_with_nul(&mark.mark, &mut slot) {
        Ok(count) => println!(mark.rt; "  {count} bytes written: {slot:?}"),
        Err(error) => println!(mark.rt; "  nothing written, {}", Refused(error)),
    }
}

// Where the mark stands on the sheet, beside another one.
fn sheet<S: StringView>(mark: &Told<impl Print, S>) -> io::Result<()> {
    let mut other = Told::new(mark.rt, StaticString::new(MARK));
    other.correct("next on the sheet", |mark| from_bytes(mark, b"GBR13"))?;
    let place = Place(compare(&mark.mark, &other.mark));
    println!(mark.rt; "  our mark stands {place} it")
}

fn day(rt: &impl Print) -> anyhow::Result<()> {
    let mut typed = Told::new(rt, StaticString::new(MARK));
    tent(&mut typed)?;

    let mut region = [b'#'; 12];
    let announced = RelocatableString::new_uninit(MARK);
    ensure!(announced.fits(&region).is_ok(), "the region is too short");
    let mut mark = Told::new(rt, announced.init(&mut region));
    start_line(&mut mark, &typed.mark)?;

    let Told { mark, .. } = mark;
    let mut narrowed = Told::new(rt, Narrow::new(mark, 7));
    finish(&mut narrowed)?;
    series_file(&mut narrowed)?;
    sheet(&narrowed)?;
    println!(rt; "the lent region: {region:?}")?;
    Ok(())
}

fn main(rt: HostRuntime) -> anyhow::Result<()> {
    day(&rt)
}
