//! Lines and what they read as.

mod shown;

use oc_script::{LineFault, parse_line};
use shown::shown;
use std::alloc::{AllocError, Global};
use std::test::Fail;

/// The first bytes, a byte so many times, and the last bytes.
fn with_many(
    alloc: Global,
    front: &[u8],
    byte: u8,
    count: usize,
    back: &[u8],
) -> Result<Vec<u8>, AllocError> {
    let mut line = Vec::from_slice(alloc, front)?;
    for _ in 0..count {
        line.push(byte)?;
    }
    line.extend_from_slice(back)?;
    Ok(line)
}

/// A query with so many parentheses round its expression.
fn in_parentheses(alloc: Global, count: usize) -> Result<Vec<u8>, AllocError> {
    let line = with_many(alloc, b"query A where ", b'(', count, b"a = 1")?;
    with_many(alloc, &line, b')', count, b"")
}

/// What the line reads as, in words.
fn read(alloc: Global, line: &[u8]) -> Result<Vec<u8>, Fail> {
    let words: &[u8] = match parse_line(alloc, line) {
        Ok(Some(command)) => return shown(alloc, &command),
        Ok(None) => b"nothing",
        Err(LineFault::Syntax) => b"refused: syntax",
        Err(LineFault::Long) => b"refused: long",
        Err(LineFault::Deep) => b"refused: deep",
        Err(LineFault::Memory) => b"memory",
    };
    let text = Vec::from_slice(alloc, words)?;
    Ok(text)
}

#[test]
fn lines_of_schema_and_settings(rt: HostRuntime) -> Result<(), Fail> {
    let cases: [(&[u8], &[u8]); 25] = [
        (b"class A{}", b"class A"),
        (
            b"class A : B { a: i32, b: [text] }",
            b"class A below B a i32 b many text",
        ),
        (
            b"class A { a: bool, b: i8, c: i16 }",
            b"class A a bool b i8 c i16",
        ),
        (
            b"class A { a: i64, b: u64, c: i128, d: ref }",
            b"class A a i64 b u64 c i128 d ref",
        ),
        (b"rename A to B", b"rename class A B"),
        (b"rename A.a to b", b"rename field A a b"),
        (b"convert A . a from [ u64 ]", b"convert A a many u64"),
        (b"convert A.a from i8", b"convert A a i8"),
        (b"index A.a", b"index A a"),
        (b"unindex A.a", b"unindex A a"),
        (b"config activation 5", b"run activation 5"),
        (b"config update 0", b"run update 0"),
        (b"config A.minimum 1", b"class minimum A 1"),
        (b"config A.maximum 2", b"class maximum A 2"),
        (b"config A.update 3", b"class update A 3"),
        (b"config A.cascade_activate on", b"cascade activate A true"),
        (b"config A.cascade_update off", b"cascade update A false"),
        (b"config A.cascade_delete on", b"cascade delete A true"),
        (
            b"config activation.minimum 1",
            b"class minimum activation 1",
        ),
        (b"config update.update 1", b"class update update 1"),
        (
            b"class class : class { i32: i32, ref: [ref] }",
            b"class class below class i32 i32 ref many ref",
        ),
        (b"rename to to to", b"rename class to to"),
        (b"rename from.to to to", b"rename field from to to"),
        (b"convert from.from from text", b"convert from from text"),
        (b"config config.minimum 1", b"class minimum config 1"),
    ];
    for (line, want) in cases {
        assert_eq!(rt; read(rt.alloc(), line)?.as_slice(), want);
    }
    Ok(())
}

#[test]
fn lines_on_objects_and_names(rt: HostRuntime) -> Result<(), Fail> {
    let cases: [(&[u8], &[u8]); 29] = [
        (b"new a A { f: 1, b: [] }", b"new a A f int 1 b [ ]"),
        (b"make A { }", b"make A"),
        (
            b"make A { n: null, b: true, c: false }",
            b"make A n null b true c false",
        ),
        (b"let a.f = -7", b"let a f int -7"),
        (b"let a.f = b", b"let a f b"),
        (b"let a.f = ~3", b"let a f ~3"),
        (
            b"let a.f = [null, true, false, 7, -7, \"t\", b, ~3]",
            b"let a f [ null true false int 7 int -7 't' b ~3 ]",
        ),
        (b"store a", b"store a by default"),
        (b"store a 3", b"store a 3"),
        (b"delete a", b"delete a"),
        (b"activate a", b"activate a by default"),
        (b"activate a 0", b"activate a 0"),
        (b"deactivate a 1", b"deactivate a 1"),
        (b"refresh a 1", b"refresh a 1"),
        (b"purge a", b"purge a"),
        (b"bind a ~1", b"bind number a ~1"),
        (b"bind a b.f", b"bind field a b f"),
        (b"forget a", b"forget a"),
        (b"names", b"names"),
        (b"show a", b"show a"),
        (b"peek a 1 committed", b"peek name a 1 committed"),
        (b"peek ~2 0 session", b"peek number ~2 0 session"),
        (b"let let.let = let", b"let let let let"),
        (b"bind bind bind.bind", b"bind field bind bind bind"),
        (b"peek peek 1session", b"peek name peek 1 session"),
        (b"bind a~1", b"bind number a ~1"),
        (b"\t \r rename\rA\t. a  to b \r", b"rename field A a b"),
        (b"commit", b"commit"),
        (b"rollback", b"rollback"),
    ];
    for (line, want) in cases {
        assert_eq!(rt; read(rt.alloc(), line)?.as_slice(), want);
    }
    Ok(())
}

#[test]
fn lines_that_ask(rt: HostRuntime) -> Result<(), Fail> {
    let cases: [(&[u8], &[u8]); 35] = [
        (b"query A", b"query A"),
        (
            b"query A order a asc, a.b desc",
            b"query A by .a up by .a .b down",
        ),
        (
            b"query A where a = 1 order b asc",
            b"query A where .a = int 1 by .b up",
        ),
        (
            b"query A where(f=1)order a.b asc",
            b"query A where .f = int 1 by .a .b up",
        ),
        (
            b"query query order order1 asc",
            b"query query by .order1 up",
        ),
        (b"example a", b"example a"),
        (b"query A where a.b = -1", b"query A where .a .b = int -1"),
        (b"query A where a < true", b"query A where .a < true"),
        (b"query A where a <= false", b"query A where .a <= false"),
        (b"query A where a > null", b"query A where .a > null"),
        (b"query A where a >= \"t\"", b"query A where .a >= 't'"),
        (b"query A where a<=-1", b"query A where .a <= int -1"),
        (b"query A where a like \"t\"", b"query A where .a like 't'"),
        (
            b"query A where a contains \"t\"",
            b"query A where .a contains 't'",
        ),
        (
            b"query A where a starts \"t\"",
            b"query A where .a starts 't'",
        ),
        (b"query A where a ends \"t\"", b"query A where .a ends 't'"),
        (b"query A where a is b", b"query A where .a is b"),
        (b"query A where a is ~1", b"query A where .a is ~1"),
        (b"query A where a example b", b"query A where .a example b"),
        (
            b"query A where like like \"t\"",
            b"query A where .like like 't'",
        ),
        (b"query A where is is is", b"query A where .is is is"),
        (
            b"query A where example example example",
            b"query A where .example example example",
        ),
        (
            b"query A where not a = 1 and b = 2 or f = 3 and a = 4",
            b"query A where (or (and (not .a = int 1) .b = int 2) (and .f = int 3 .a = int 4))",
        ),
        (
            b"query A where a = 1 or b = 2 or f = 3",
            b"query A where (or .a = int 1 .b = int 2 .f = int 3)",
        ),
        (
            b"query A where a = 1 or (b = 2 or f = 3)",
            b"query A where (or .a = int 1 (or .b = int 2 .f = int 3))",
        ),
        (
            b"query A where (a = 1 or b = 2) or f = 3",
            b"query A where (or (or .a = int 1 .b = int 2) .f = int 3)",
        ),
        (
            b"query A where a = 1 and (b = 2 and f = 3)",
            b"query A where (and .a = int 1 (and .b = int 2 .f = int 3))",
        ),
        (
            b"query A where a = 1 and (b = 2 or f = 3)",
            b"query A where (and .a = int 1 (or .b = int 2 .f = int 3))",
        ),
        (
            b"query A where f=1and a=2",
            b"query A where (and .f = int 1 .a = int 2)",
        ),
        (b"query A where ((a = 1))", b"query A where .a = int 1"),
        (
            b"query A where not (a = 1)",
            b"query A where (not .a = int 1)",
        ),
        (
            b"query A where (not ((a = 1)))",
            b"query A where (not .a = int 1)",
        ),
        (
            b"query A where not (not (a = 1))",
            b"query A where (not (not .a = int 1))",
        ),
        (
            b"query A where not (a = 1 or not b = 2)",
            b"query A where (not (or .a = int 1 (not .b = int 2)))",
        ),
        (
            b"query A where a.b.c.d.e.f.g.h.i.j.k.l.m.n.o.p = 1",
            b"query A where .a .b .c .d .e .f .g .h .i .j .k .l .m .n .o .p = int 1",
        ),
    ];
    for (line, want) in cases {
        assert_eq!(rt; read(rt.alloc(), line)?.as_slice(), want);
    }
    Ok(())
}

#[test]
fn numbers_texts_and_names(rt: HostRuntime) -> Result<(), Fail> {
    let cases: [(&[u8], &[u8]); 10] = [
        (b"store a 007", b"store a 7"),
        (b"bind a ~01", b"bind number a ~1"),
        (b"let a.f = -0", b"let a f int 0"),
        (
            b"refresh a 000000000000000000000000000000000000012",
            b"refresh a 12",
        ),
        (
            b"let a.f = [170141183460469231731687303715884105727, -170141183460469231731687303715884105728]",
            b"let a f [ int 170141183460469231731687303715884105727 int -170141183460469231731687303715884105728 ]",
        ),
        (
            b"bind a ~170141183460469231731687303715884105727",
            b"bind number a ~170141183460469231731687303715884105727",
        ),
        (
            b"let a.f = \"\\\"\\\\\\n\\r\\t\\x7f\\x7F\\x0a\\x0A(# {}\"",
            b"let a f '\"\\\n\r\t\x7f\x7f\n\n(# {}'",
        ),
        (
            b"let a.f = \"\xc2\x80\xc2\x9f\xc3\xa9\xe2\x82\xac\xf4\x8f\xbf\xbf\"",
            b"let a f '\xc2\x80\xc2\x9f\xc3\xa9\xe2\x82\xac\xf4\x8f\xbf\xbf'",
        ),
        (b"let a.f = \"\"", b"let a f ''"),
        (
            b"show _0123456789012345678901234567890123456789012345678901234567890ab",
            b"show _0123456789012345678901234567890123456789012345678901234567890ab",
        ),
    ];
    for (line, want) in cases {
        assert_eq!(rt; read(rt.alloc(), line)?.as_slice(), want);
    }
    Ok(())
}

#[test]
fn lines_say_nothing(rt: HostRuntime) -> Result<(), Fail> {
    let cases: [&[u8]; 5] = [b"", b" \t\r", b"#", b"# \xff\x00\x0b\"", b" \t# query A"];
    for line in cases {
        assert_eq!(rt; read(rt.alloc(), line)?.as_slice(), b"nothing".as_slice());
    }
    Ok(())
}

#[test]
fn long_lines(rt: HostRuntime) -> Result<(), Fail> {
    let alloc = rt.alloc();
    let cases: [(&[u8], u8, &[u8]); 4] = [
        (b"", b' ', b"nothing"),
        (b"#", b'(', b"nothing"),
        (b"names", b' ', b"names"),
        (b"names", b'$', b"refused: syntax"),
    ];
    for (front, byte, want) in cases {
        let longest = with_many(alloc, front, byte, 65_535 - front.len(), b"")?;
        assert_eq!(rt; read(alloc, &longest)?.as_slice(), want);
        let longer = with_many(alloc, front, byte, 65_536 - front.len(), b"")?;
        assert_eq!(rt;
            read(alloc, &longer)?.as_slice(),
            b"refused: long".as_slice()
        );
    }
    Ok(())
}

#[test]
fn deep_lines(rt: HostRuntime) -> Result<(), Fail> {
    let alloc = rt.alloc();
    let cases: [(&[u8], usize, &[u8], &[u8]); 7] = [
        (b"names ", 64, b"", b"refused: syntax"),
        (b"names ", 65, b"", b"refused: deep"),
        (b"names )", 65, b"", b"refused: deep"),
        (b"query A where ", 65, b"a = 1", b"refused: deep"),
        (b"((", 62, b")(", b"refused: syntax"),
        (b"names ", 65, b"$", b"refused: syntax"),
        (b"# ", 65, b"", b"nothing"),
    ];
    for (front, count, back, want) in cases {
        let line = with_many(alloc, front, b'(', count, back)?;
        assert_eq!(rt; read(alloc, &line)?.as_slice(), want);
    }
    let deepest = in_parentheses(alloc, 64)?;
    assert_eq!(rt;
        read(alloc, &deepest)?.as_slice(),
        b"query A where .a = int 1".as_slice()
    );
    let deeper = in_parentheses(alloc, 65)?;
    assert_eq!(rt;
        read(alloc, &deeper)?.as_slice(),
        b"refused: deep".as_slice()
    );
    let in_text = with_many(alloc, b"query A where a = \"", b'(', 65, b"\"")?;
    let want = with_many(alloc, b"query A where .a = '", b'(', 65, b"'")?;
    assert_eq!(rt; read(alloc, &in_text)?.as_slice(), want.as_slice());
    Ok(())
}

#[test]
fn lines_that_fall_into_no_tokens(rt: HostRuntime) -> Result<(), Fail> {
    let cases: [&[u8]; 32] = [
        b"store a 0000000000000000000000000000000000000000",
        b"bind a ~0000000000000000000000000000000000000000",
        b"let a.f = -0000000000000000000000000000000000000000",
        b"show _0123456789012345678901234567890123456789012345678901234567890abc",
        b"store a 170141183460469231731687303715884105728",
        b"bind a ~170141183460469231731687303715884105728",
        b"let a.f = -170141183460469231731687303715884105729",
        b"let a.f = - 1",
        b"bind a ~ 1",
        b"bind a ~-1",
        b"let a.f = --1",
        b"query A where a < = 1",
        b"names $",
        b"show a;",
        b"show\x0ba",
        b"names\x0c",
        b"let a.f = \"\t\"",
        b"let a.f = \"\r\"",
        b"let a.f = \"\x00\"",
        b"let a.f = \"\x7f\"",
        b"let a.f = \"\\x80\"",
        b"let a.f = \"\\x0g\"",
        b"let a.f = \"\\x0\"",
        b"let a.f = \"\\q\"",
        b"let a.f = \"\\\"",
        b"let a.f = \"t",
        b"let a.f = \"\xed\xa0\x80\"",
        b"let a.f = \"\xc0\x80\"",
        b"let a.f = \"\xff\"",
        b"let a.f = \"\xc3\"",
        b"let a.f = \"\xf4\x90\x80\x80\"",
        b"show a\xc3\xa9",
    ];
    for line in cases {
        assert_eq!(rt;
            read(rt.alloc(), line)?.as_slice(),
            b"refused: syntax".as_slice()
        );
    }
    Ok(())
}

#[test]
fn reserved_words_are_no_names(rt: HostRuntime) -> Result<(), Fail> {
    let cases: [&[u8]; 22] = [
        b"show true",
        b"show false",
        b"show null",
        b"show and",
        b"show or",
        b"show not",
        b"show where",
        b"show order",
        b"show asc",
        b"show desc",
        b"class where {}",
        b"class A : or {}",
        b"class A { not: i32 }",
        b"make A { asc: 1 }",
        b"let a.f = and",
        b"let a.f = [desc]",
        b"bind a null.f",
        b"bind a b.true",
        b"peek false 1 session",
        b"query A where a.order = 1",
        b"query A where a is null",
        b"query A order desc asc",
    ];
    for line in cases {
        assert_eq!(rt;
            read(rt.alloc(), line)?.as_slice(),
            b"refused: syntax".as_slice()
        );
    }
    Ok(())
}

#[test]
fn lines_that_are_no_commands(rt: HostRuntime) -> Result<(), Fail> {
    let cases: [&[u8]; 66] = [
        b"unknown",
        b"Names",
        b"1",
        b"{ }",
        b"\"names\"",
        b"semaphore a",
        b"class",
        b"class A",
        b"class A : { }",
        b"class A { a }",
        b"class A { a: i32, }",
        b"class A { a: i32 b: i32 }",
        b"class A { a: real }",
        b"class A { a: [] }",
        b"class A { a: [i32 }",
        b"class A { a: [[i32]] }",
        b"rename A to",
        b"rename A. to b",
        b"convert A.a i32",
        b"index A",
        b"unindex A.",
        b"config A",
        b"config A 1",
        b"config activation",
        b"config activation -1",
        b"config A.minimum",
        b"config A.minimum on",
        b"config A.depth 1",
        b"config A.cascade_update 1",
        b"config A.cascade_delete yes",
        b"new a { }",
        b"make A",
        b"make A { a: 1, }",
        b"let a.f =",
        b"let a = 1",
        b"let a.f = [1,]",
        b"let a.f = [1 2]",
        b"let a.f = [[1]]",
        b"store",
        b"store a -5",
        b"store a 1 2",
        b"store a\"t\"",
        b"deactivate a",
        b"refresh a -5",
        b"bind a",
        b"bind a b",
        b"peek a session",
        b"peek a 1",
        b"peek a 1 both",
        b"names a",
        b"commit 1",
        b"query 7",
        b"query A # all",
        b"query A where",
        b"query A order a",
        b"query A order a asc,",
        b"query A order a asc where a = 1",
        b"query A where a.b.c.d.e.f.g.h.i.j.k.l.m.n.o.p.q = 1",
        b"query A where not not a = 1",
        b"query A where ()",
        b"query A where (a = 1",
        b"query A where a = 1)",
        b"query A where a = 1 and or b = 2",
        b"query A where a = b",
        b"query A where a = ~1",
        b"query A where a like 1",
    ];
    for line in cases {
        assert_eq!(rt;
            read(rt.alloc(), line)?.as_slice(),
            b"refused: syntax".as_slice()
        );
    }
    Ok(())
}
