use oc_host::{Failed, FileHost, Fill, Host, MemHost, MemSource, Source, StdSource};
use std::alloc::{AllocError, Global};
use std::fs;
use std::test::Fail;

fn memory(alloc: Global, fail: &[u64]) -> Result<MemHost, AllocError> {
    MemHost::new(alloc, vec![in alloc; 1, 2, 3, 4]?, fail.to_vec(alloc)?)
}

#[test]
fn keeps_what_is_written_and_said(rt: HostRuntime) -> Result<(), Fail> {
    let mut host = memory(rt.alloc(), &[])?;
    assert_eq!(rt; host.len(), Ok(4));
    assert_eq!(rt; host.write_at(3, &[9, 8]), Ok(()));
    assert_eq!(rt; host.sync(), Ok(()));
    assert_eq!(rt; host.write_at(0, &[7]), Ok(()));
    assert_eq!(rt; host.say(b"ab"), Ok(()));
    assert_eq!(rt; host.say(b"c"), Ok(()));
    assert_eq!(rt; host.bytes(), [7, 2, 3, 9, 8].as_slice());
    let mut read = [0; 3];
    assert_eq!(rt; host.read(2, &mut read), Ok(()));
    assert_eq!(rt; read, [3, 9, 8]);
    assert_eq!(rt; host.said(), b"abc".as_slice());
    assert_eq!(rt; host.calls(), 7);
    Ok(())
}

// Makes each kind of call once, and answers which succeeded.
fn each_call<H: Host>(host: &mut H) -> [bool; 5] {
    [
        host.len().is_ok(),
        host.write_at(0, &[9]).is_ok(),
        host.sync().is_ok(),
        host.say(b"ab").is_ok(),
        host.read(0, &mut [0; 0]).is_ok(),
    ]
}

#[test]
fn fails_where_it_is_to(rt: HostRuntime) -> Result<(), Fail> {
    for number in 1..=5 {
        let mut host = memory(rt.alloc(), &[number])?;
        let succeed = each_call(&mut host);
        for (place, ok) in (1..).zip(succeed) {
            assert_eq!(rt; ok, place != number, "call {place} where {number} fails");
        }
        let first = if number == 2 { 1 } else { 9 };
        let said: &[u8] = if number == 4 { b"" } else { b"ab" };
        assert_eq!(rt; host.bytes(), [first, 2, 3, 4].as_slice());
        assert_eq!(rt; host.said(), said);
        assert_eq!(rt; host.calls(), 5);
    }
    Ok(())
}

#[test]
fn shows_what_a_stop_leaves(rt: HostRuntime) -> Result<(), Fail> {
    let alloc = rt.alloc();
    let mut host = memory(alloc, &[])?;
    assert_eq!(rt; host.len(), Ok(4));
    assert_eq!(rt; host.write_at(3, &[9, 8]), Ok(()));
    assert_eq!(rt; host.say(b"ab"), Ok(()));
    assert_eq!(rt; host.sync(), Ok(()));
    assert_eq!(rt; host.write_at(0, &[7]), Ok(()));
    for (call, fill, image, said) in [
        (1, Fill::Kept, [1, 2, 3, 4].as_slice(), ""),
        (2, Fill::Kept, [1, 2, 3, 9, 8].as_slice(), ""),
        (2, Fill::Lost, [1, 2, 3, 4].as_slice(), ""),
        (2, Fill::Byte(5), [1, 2, 3, 5, 5].as_slice(), ""),
        (3, Fill::Lost, [1, 2, 3, 4].as_slice(), ""),
        (4, Fill::Byte(0), [1, 2, 3, 0, 0].as_slice(), "ab"),
        (5, Fill::Kept, [7, 2, 3, 9, 8].as_slice(), "ab"),
        (5, Fill::Lost, [1, 2, 3, 9, 8].as_slice(), "ab"),
        (5, Fill::Byte(0), [0, 2, 3, 9, 8].as_slice(), "ab"),
    ] {
        assert!(rt; 1 <= call && call <= host.calls());
        assert_eq!(rt;
            host.image(alloc, call, fill)?.as_slice(),
            image,
            "{call} {fill:?}"
        );
        assert_eq!(rt; host.said_at(alloc, call)?.as_slice(), said.as_bytes());
    }
    Ok(())
}

#[test]
fn a_failed_write_opens_its_range(rt: HostRuntime) -> Result<(), Fail> {
    let alloc = rt.alloc();
    let mut host = memory(alloc, &[2])?;
    assert_eq!(rt; host.len(), Ok(4));
    assert_eq!(rt; host.write_at(3, &[9, 8]), Err(Failed));
    assert_eq!(rt; host.sync(), Ok(()));
    for (call, fill, image) in [
        (2, Fill::Kept, [1, 2, 3, 9, 8].as_slice()),
        (3, Fill::Kept, [1, 2, 3, 4].as_slice()),
        (3, Fill::Lost, [1, 2, 3, 4].as_slice()),
        (3, Fill::Byte(5), [1, 2, 3, 5, 5].as_slice()),
    ] {
        assert!(rt; 1 <= call && call <= host.calls());
        assert_eq!(rt;
            host.image(alloc, call, fill)?.as_slice(),
            image,
            "{call} {fill:?}"
        );
    }
    Ok(())
}

#[test]
fn gives_a_text_in_parts(rt: HostRuntime) -> Result<(), Fail> {
    let alloc = rt.alloc();
    let mut source = MemSource::new(vec![in alloc; 1, 2, 3]?, vec![in alloc; 2]?);
    let mut part = [0; 2];
    for (answer, bytes) in [
        (Ok(2), [1, 2]),
        (Err(Failed), [1, 2]),
        (Ok(1), [3, 2]),
        (Ok(0), [3, 2]),
    ] {
        assert_eq!(rt; source.read(&mut part), answer);
        assert_eq!(rt; part, bytes);
    }
    Ok(())
}

const FILE: &str = "oc_host_test_file";

#[test]
fn writes_a_file(rt: HostRuntime) -> Result<(), Fail> {
    let mut host = FileHost::at(rt.alloc(), &rt, FILE)?;
    assert_eq!(rt; host.say(b"nothing is opened yet\n"), Ok(()));
    assert!(rt; fs::metadata(&rt, FILE).is_err());
    assert_eq!(rt; host.write_at(0, &[1, 2, 3, 4]), Ok(()));
    assert_eq!(rt; host.write_at(3, &[9, 8]), Ok(()));
    assert_eq!(rt; host.sync(), Ok(()));
    assert_eq!(rt; host.len(), Ok(5));
    let mut again = FileHost::at(rt.alloc(), &rt, FILE)?;
    let mut read = [0; 3];
    assert_eq!(rt; again.read(2, &mut read), Ok(()));
    assert_eq!(rt; read, [3, 9, 8]);
    assert_eq!(rt; again.read(3, &mut read), Err(Failed));
    fs::remove_file(&rt, FILE)?;
    Ok(())
}

#[test]
fn fails_nowhere(rt: HostRuntime) {
    let mut host = FileHost::nowhere(&rt);
    assert_eq!(rt; each_call(&mut host), [false; 5]);
}

#[test]
fn reads_the_standard_input(rt: HostRuntime) {
    let mut source = StdSource::new(&rt);
    let mut part = [0; 4];
    let count = source.read(&mut part);
    assert_eq!(rt; source.read(&mut part[..0]), Ok(0));
    assert!(rt; count.is_ok_and(|count| count <= 4));
}
