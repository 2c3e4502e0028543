//! `ocdb FILE`: reads a script from standard input, and says its answers.
#![tactic(auto)]

use oc_host::{FileHost, StdSource};
use oc_run::{FileWords, Status, file_words, run};
use std::alloc::AllocError;
use std::process::ExitCode;
use std::rt::{Env, Files};
use std::{env, io};

/// The words behind the program's name.
fn words_of<R: Env + AllocGlobal>(rt: &R) -> io::Result<Vec<String>> {
    let mut words = Vec::new(rt.alloc());
    for word in env::args(rt)?.skip(1) {
        words.push(word)?;
    }
    Ok(words)
}

/// The file that the words name; no file where they name none.
fn file_of<'a, R: Files + Print + AllocGlobal>(
    rt: &'a R,
    named: &Option<FileWords>,
) -> Result<FileHost<'a, R>, AllocError> {
    let Some(named) = named else {
        return Ok(FileHost::nowhere(rt));
    };
    match str::from_utf8(named.file.as_slice()) {
        Ok(path) => FileHost::at(rt.alloc(), rt, path),
        Err(_) => Ok(FileHost::nowhere(rt)),
    }
}

/// Runs the script of standard input over the file that the words name.
fn answer<R: Files + Print + Input + AllocGlobal>(
    rt: &R,
    words: &[String],
) -> Result<Status, AllocError> {
    let named = file_words(rt.alloc(), words)?;
    let mut host = file_of(rt, &named)?;
    let mut other = FileHost::nowhere(rt);
    let mut script = StdSource::new(rt);
    Ok(run(rt.alloc(), words, &mut script, &mut host, &mut other))
}

/// How a run ends whose words can't be had: a word that isn't UTF-8 is no file's name.
fn without_words(fault: &io::Error) -> Status {
    match fault.kind() {
        io::ErrorKind::OutOfMemory => Status::Memory,
        _ => Status::Words,
    }
}

fn main(rt: HostRuntime) -> ExitCode {
    let status = match words_of(&rt) {
        Ok(words) => answer(&rt, &words).unwrap_or(Status::Memory),
        Err(fault) => without_words(&fault),
    };
    ExitCode::from(status.code())
}
