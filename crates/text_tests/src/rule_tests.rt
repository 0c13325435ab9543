use file_name::FileName;
use path::Path;
use rules::pair::Pair;
use rules::{NormalForm, SemanticStringAccessor};
use sail_mark::SailMark;
use std::process::Abort;
use std::test::Fail;
use string_view::error::BufferTooShort;

// The rule calls each word of a list valid.
fn all_valid<R: SemanticStringAccessor>(rt: &impl Abort, rule: &R, words: &str) {
    for word in words.split(',') {
        assert!(rt; !rule.is_invalid_content(word.as_bytes()));
    }
}

// The rule calls each word of a list invalid, though its characters are allowed.
fn all_invalid<R: SemanticStringAccessor>(rt: &impl Abort, rule: &R, words: &str) {
    for word in words.split(',') {
        assert!(rt; rule.is_invalid_content(word.as_bytes()));
        assert!(rt; !rule.does_contain_invalid_characters(word.as_bytes()));
    }
}

// The rule finds an invalid character in each word of a list.
fn all_strange<R: SemanticStringAccessor>(rt: &impl Abort, rule: &R, words: &str) {
    for word in words.split(',') {
        assert!(rt; rule.does_contain_invalid_characters(word.as_bytes()));
        assert!(rt; rule.is_invalid_content(word.as_bytes()));
    }
}

// Bytes outside RFC 20's characters are strange to the rule, in front, inside and behind.
fn outside_is_strange<R: SemanticStringAccessor>(rt: &impl Abort, rule: &R) {
    for byte in [0u8, 128, 200, 255] {
        assert!(rt; rule.does_contain_invalid_characters(&[byte]));
        assert!(rt; rule.does_contain_invalid_characters(&[byte, b'1', b'1']));
        assert!(rt; rule.does_contain_invalid_characters(&[b'1', byte, b'1']));
        assert!(rt; rule.is_invalid_content(&[b'G', b'B', b'R', b'1', byte]));
    }
}

// Each text of a list has the normal form behind its equals sign.
fn all_normal<R: NormalForm>(rt: &impl Abort, rule: &R, pairs: &str) -> Result<(), Fail> {
    for pair in pairs.split(',') {
        let (text, normal) = pair.split_once('=').ok_or("no equals sign")?;
        let mut buffer = [b'#'; 20];
        let count = rule.normalize(text.as_bytes(), &mut buffer)?;
        assert!(rt; count == normal.len() && count < 20);
        assert!(rt; &buffer[0..count] == normal.as_bytes());
        assert!(rt; buffer[count] == b'#');
    }
    Ok(())
}

#[test]
fn file_names(rt: HostRuntime) {
    all_valid(
        &rt,
        &FileName,
        "a,Z,0,_,...,..a,.a,a.,a-,_-,results_2.csv,Fabric-gneiss.09",
    );
    all_invalid(&rt, &FileName, ",.,..,-,-a,--");
    all_strange(&rt, &FileName, " ,a b,a/b,/,a~,@,[,`,{,:,a\n,+");
    outside_is_strange(&rt, &FileName);
}

#[test]
fn paths(rt: HostRuntime) {
    all_valid(
        &rt,
        &Path,
        "/,//,a,a/b,/a/b/,./a,a/.,...,a/...,..a,a/..b,a../b,-a,a//b",
    );
    all_invalid(&rt, &Path, ",..,../a,a/..,a/../b,/..,//..//,a/b/..");
    all_strange(&rt, &Path, "a b,a\\b,a:b,~/a, ");
    outside_is_strange(&rt, &Path);
}

#[test]
fn sail_marks(rt: HostRuntime) {
    all_valid(
        &rt,
        &SailMark,
        "GBR 12,GBR12,gbr 1,Irl123456,IRL 123456,abc0",
    );
    all_invalid(
        &rt,
        &SailMark,
        ",GBR,GBR ,GBR  1,gbr1234567,GBR 1234567,GB 1,GBRX 1,1GBR,GBR 1 ,G1R 2,GBR1A, GBR1,   1",
    );
    all_strange(&rt, &SailMark, "GBR-1,GBR_1,GBR/1,GBR 1\n,GBR.1,@BR1,GBR:");
    outside_is_strange(&rt, &SailMark);
}

// A name that is a mark too, and a pair of pairs.
#[test]
fn pairs(rt: HostRuntime) {
    let both = Pair {
        first: FileName,
        second: SailMark,
    };
    all_valid(&rt, &both, "GBR12,gbr1");
    all_invalid(&rt, &both, ",GBR,12");
    all_strange(&rt, &both, "GBR 12,GBR-1,a/b");
    outside_is_strange(&rt, &both);
    let three = Pair {
        first: Path,
        second: both,
    };
    all_valid(&rt, &three, "GBR12");
    all_strange(&rt, &three, "GBR 12,/GBR12");
    outside_is_strange(&rt, &three);
}

#[test]
fn normal_forms(rt: HostRuntime) -> Result<(), Fail> {
    all_normal(&rt, &FileName, "a=a,-A.b_=-A.b_,=")?;
    all_normal(
        &rt,
        &Path,
        "=,/=/,//=/,///=/,a//b/=a/b,a=a,/a=/a,//a=/a,a/=a,a///=a,/a//b///c//=/a/b/c,./a/.=./a/.",
    )?;
    all_normal(
        &rt,
        &SailMark,
        "gbr 12=GBR12,GBR12=GBR12,gBr  1=GBR1,=, =,az AZ 09=AZAZ09,`{@[/:=`{@[/:",
    )
}

#[test]
fn short_buffers(rt: HostRuntime) {
    let mut buffer = [b'#'; 3];
    assert_eq!(rt;
        Path.normalize(b"/a//bc/", &mut buffer),
        Err(BufferTooShort)
    );
    assert_eq!(rt;
        SailMark.normalize(b"gbr 1", &mut buffer),
        Err(BufferTooShort)
    );
    assert_eq!(rt;
        FileName.normalize(b"name", &mut buffer),
        Err(BufferTooShort)
    );
    assert_eq!(rt; Path.normalize(b"//", &mut []), Err(BufferTooShort));
    assert!(rt; buffer == [b'#'; 3]);
    assert_eq!(rt; Path.normalize(b"//a/", &mut buffer), Ok(2));
    assert!(rt; buffer == [b'/', b'a', b'#']);
}
