ghost use Rattle.std.specs.Prelude.{false, []};

use oc_host::{Failed, MemHost, MemSource, Source};
use oc_run::{Status, file_words, run};
use std::alloc::{AllocError, Global};
use std::test::Fail;

/// What a run over memory said, and how it ended.
#[derive(Drop)]
struct Ended {
    status: Status,
    said: Vec<u8>,
    calls: u64,
}

fn words(alloc: Global, given: &[&str]) -> Result<Vec<String>, AllocError> {
    let mut words = Vec::new(alloc);
    for word in given {
        words.push(String::from_str(alloc, word)?)?;
    }
    Ok(words)
}

/// The script over an empty file, where these calls of the source and of the host fail.
fn run_in_memory(
    alloc: Global,
    given: &[&str],
    script: &[u8],
    source_fails: Vec<u64>,
    host_fails: Vec<u64>,
) -> Result<Ended, AllocError> {
    let words = words(alloc, given)?;
    let mut source = MemSource::new(Vec::from_slice(alloc, script)?, source_fails);
    let mut host = MemHost::new(alloc, Vec::new(alloc), host_fails)?;
    let mut other = MemHost::new(alloc, Vec::new(alloc), Vec::new(alloc))?;
    let status = run(alloc, &words, &mut source, &mut host, &mut other);
    Ok(Ended {
        status,
        said: Vec::from_slice(alloc, host.said())?,
        calls: host.calls(),
    })
}

fn answered(alloc: Global, script: &[u8]) -> Result<Ended, AllocError> {
    run_in_memory(alloc, &["f.oc"], script, Vec::new(alloc), Vec::new(alloc))
}

const PILOT: &[u8] = b"class Pilot { name: text, points: i32 }
make Pilot { name: \"Michael\", points: 100 }
query Pilot
";

const PILOT_SAYS: &[u8] = b"ready
ok
stored ~1 1
~1 Pilot { name: \"Michael\", points: 100 }
found 1
closed
";

const REFUSED: &[u8] = b"class A { n: i32 }
make A { }
make B { }
make A { n: 2147483648 }
query A
";

const REFUSED_SAYS: &[u8] = b"ready
ok
stored ~1 1
error class
error kind
~1 A { n: 0 }
found 1
closed
";

/// Lines that read as commands which the program doesn't have yet.
const NOT_BUILT: &[u8] = b"class A { n: i32 }
class B { on: bool }
class C: A { }
make A { n: true }
query A where n = 1
query A order n asc
commit
query A
";

const NOT_BUILT_SAYS: &[u8] = b"ready
ok
error syntax
error syntax
error syntax
error syntax
error syntax
error syntax
found 0
closed
";

#[test]
fn scripts_are_answered(rt: HostRuntime) -> Result<(), Fail> {
    let rows = [
        (b"".as_slice(), b"ready\nclosed\n".as_slice(), 0),
        (PILOT, PILOT_SAYS, 0),
        (REFUSED, REFUSED_SAYS, 1),
        (
            b"class A { }\nclass A { }",
            b"ready\nok\nerror syntax\nclosed\n",
            1,
        ),
        (
            b"# quiet\n\n \t\r\nquery A",
            b"ready\nerror class\nclosed\n",
            1,
        ),
        (
            b"(((((((((((((((((((((((((((((((((((((((((((((((((((((((((((((((((",
            b"ready\nerror deep\nclosed\n",
            1,
        ),
        (NOT_BUILT, NOT_BUILT_SAYS, 1),
    ];
    for (script, says, code) in rows {
        let outcome = answered(rt.alloc(), script)?;
        assert_eq!(rt; outcome.said.as_slice(), says);
        assert_eq!(rt; outcome.status.code(), code);
    }
    Ok(())
}

#[test]
fn faulty_words_call_nothing(rt: HostRuntime) -> Result<(), Fail> {
    let rows = [
        [].as_slice(),
        &["a.oc", "b.oc"],
        &["--limit", "12", "f.oc"],
        &["--help"],
        &["-"],
    ];
    for given in rows {
        let alloc = rt.alloc();
        let outcome = run_in_memory(alloc, given, PILOT, Vec::new(alloc), Vec::new(alloc))?;
        assert_eq!(rt; outcome.status.code(), 2);
        assert_eq!(rt; outcome.calls, 0);
        let words = words(alloc, given)?;
        assert!(rt; file_words(alloc, &words)?.is_none());
    }
    Ok(())
}

#[test]
fn a_word_names_the_file(rt: HostRuntime) -> Result<(), Fail> {
    let words = words(rt.alloc(), &["f.oc"])?;
    let named = file_words(rt.alloc(), &words)?.ok_or("no file")?;
    assert_eq!(rt; named.file.as_slice(), b"f.oc".as_slice());
    assert!(rt; named.other.is_none());
    Ok(())
}

#[test]
fn a_failing_host_ends_the_run(rt: HostRuntime) -> Result<(), Fail> {
    let fronts = [
        b"".as_slice(),
        b"ready\n",
        b"ready\nok\n",
        b"ready\nok\nstored ~1 1\n",
        b"ready\nok\nstored ~1 1\n~1 Pilot { name: \"Michael\", points: 100 }\nfound 1\n",
    ];
    let mut call = 1u64;
    for front in fronts {
        let alloc = rt.alloc();
        let fails = vec![in alloc; call]?;
        let outcome = run_in_memory(alloc, &["f.oc"], PILOT, Vec::new(alloc), fails)?;
        assert_eq!(rt; outcome.status.code(), 4);
        assert_eq!(rt; outcome.said.as_slice(), front);
        call = call.saturating_add(1);
    }
    Ok(())
}

/// A script of three pieces: a class and so many makes.
fn makes(alloc: Global, count: u32) -> Result<Vec<u8>, AllocError> {
    let mut script = Vec::from_slice(alloc, b"class A { n: i32 }\n")?;
    for _ in 0..count {
        script.extend_from_slice(b"make A { n: 1 }\n")?;
    }
    Ok(script)
}

#[test]
fn a_failing_source_ends_the_run(rt: HostRuntime) -> Result<(), Fail> {
    let alloc = rt.alloc();
    let script = makes(alloc, 6000)?;
    let whole = answered(alloc, &script)?;
    assert_eq!(rt; whole.status.code(), 0);
    for call in [1u64, 2, 3] {
        let fails = vec![in alloc; call]?;
        let outcome = run_in_memory(alloc, &["f.oc"], &script, fails, Vec::new(alloc))?;
        assert_eq!(rt; outcome.status.code(), 5);
        assert!(rt; outcome.said.len() < whole.said.len());
        assert!(rt; whole.said.starts_with(&outcome.said));
    }
    Ok(())
}

/// LF for ever.
#[derive(Drop)]
struct Endless {
    taken: u64,
}

impl Source for Endless {
    ghost tells = { false };

    ghost left = { λ _. [] };

    ghost faults = { λ _. 0 };

    ghost taken = { λ s. s.taken };

    fn read(&mut self, into: &mut [u8]) -> Result<usize, Failed> {
        for byte in into.iter_mut() {
            *byte = b'\n';
        }
        self.taken = self.taken.saturating_add(into.len() as u64);
        Ok(into.len())
    }
}

#[test]
fn an_endless_script_is_too_long(rt: HostRuntime) -> Result<(), Fail> {
    let alloc = rt.alloc();
    let words = words(alloc, &["f.oc"])?;
    let mut source = Endless { taken: 0 };
    let mut host = MemHost::new(alloc, Vec::new(alloc), Vec::new(alloc))?;
    let mut other = MemHost::new(alloc, Vec::new(alloc), Vec::new(alloc))?;
    let status = run(alloc, &words, &mut source, &mut host, &mut other);
    assert_eq!(rt; status.code(), 8);
    assert_eq!(rt; host.said(), b"ready\n".as_slice());
    assert_eq!(rt; source.taken, 268_435_457);
    Ok(())
}
