// A file of the runtime, and its standard output.
ghost use Rattle.std.specs.Prelude.{◌≡◌, ◌≤◌, ◌+◌, false, [], Some, None, IsErr, IfOk};
ghost use Rattle.oc_host.specs.Counts.{Ticks, HasCause};
ghost use Rattle.oc_host.specs.Replay.{fresh};

use crate::{Failed, Host};
use std::alloc::{AllocError, Global};
use std::fs::{OpenFile, OpenOptions};
use std::io;
use std::io::{Read, Seek, SeekFrom, Write};
use std::rt::Files;

/// The file at a path, or no file at all.
///
/// The first call that needs the file opens it, and makes it where there is none; `say` needs none, and what is said
/// goes to the standard output. The clauses tell nothing of the bytes.
#[derive(Drop)]
pub struct FileHost<'a, R: Files + Print> {
    rt: &'a R,
    path: Option<String>,
    file: Option<R::File>,
    clock: u64,
    faults: u64,
    taken: u64,
}

impl<'a, R: Files + Print> FileHost<'a, R> {
    ghost use Rattle.oc_host.specs.FileHost.{path_of};

    /// The file at this path, which is not opened yet.
    pub fn at(alloc: Global, rt: &'a R, path: &str) -> Result<FileHost<'a, R>, AllocError>
        ensures path { IfOk result (λ host. path_of host ≡ Some path.now) }
        ensures clock { IfOk result (λ host. ⟦<FileHost<'a, R> as Host>⟧.clock host ≡ 0) }
        ensures faults { IfOk result (λ host. ⟦<FileHost<'a, R> as Host>⟧.faults host ≡ 0) }
        ensures taken { IfOk result (λ host. ⟦<FileHost<'a, R> as Host>⟧.taken host ≡ 0) }
    {
        Ok(FileHost {
            rt,
            path: Some(String::from_str(alloc, path)?),
            file: None,
            clock: 0,
            faults: 0,
            taken: 0,
        })
    }

    /// A host without a file, on which no call succeeds.
    pub fn nowhere(rt: &'a R) -> FileHost<'a, R>
        ensures path { path_of result ≡ None }
        ensures clock { ⟦<FileHost<'a, R> as Host>⟧.clock result ≡ 0 }
        ensures faults { ⟦<FileHost<'a, R> as Host>⟧.faults result ≡ 0 }
        ensures taken { ⟦<FileHost<'a, R> as Host>⟧.taken result ≡ 0 }
    {
        FileHost {
            rt,
            path: None,
            file: None,
            clock: 0,
            faults: 0,
            taken: 0,
        }
    }
}

fn opened<'f, R: Files + Print>(
    rt: &R,
    path: &Option<String>,
    file: &'f mut Option<R::File>,
) -> io::Result<&'f mut R::File>
    ensures { path.now ≡ None → IsErr result }
{
    let Some(path) = path else {
        return Err(io::ErrorKind::NotFound.into());
    };
    if file.is_none() {
        let mut how = OpenOptions::new();
        how.read(true).write(true).create(true);
        *file = Some(rt.open_file(&how, path.as_str())?);
    }
    match file {
        Some(file) => Ok(file),
        None => Err(io::ErrorKind::NotFound.into()),
    }
}

// How each call ends: the clock rises, and at a failure the count of faults.
fn counted<T>(outcome: io::Result<T>, clock: &mut u64, faults: &mut u64) -> Result<T, Failed>
    ensures clock { Ticks result clock.old clock.new }
    ensures cause { HasCause result faults.old faults.new }
{
    *clock = clock.saturating_add(1);
    match outcome {
        Ok(value) => Ok(value),
        Err(_) => {
            *faults = faults.saturating_add(1);
            Err(Failed)
        }
    }
}

fn len_of<R: Files + Print>(
    rt: &R,
    path: &Option<String>,
    file: &mut Option<R::File>,
) -> io::Result<u64>
    ensures { path.now ≡ None → IsErr result }
{
    Ok(opened(rt, path, file)?.metadata()?.len())
}

fn read_from<R: Files + Print>(
    rt: &R,
    path: &Option<String>,
    file: &mut Option<R::File>,
    at: u64,
    into: &mut [u8],
) -> io::Result<()>
    ensures { path.now ≡ None → IsErr result }
{
    let file = opened(rt, path, file)?;
    file.seek(SeekFrom::Start(at))?;
    file.read_exact(into)
}

fn write_to<R: Files + Print>(
    rt: &R,
    path: &Option<String>,
    file: &mut Option<R::File>,
    at: u64,
    bytes: &[u8],
) -> io::Result<()>
    ensures { path.now ≡ None → IsErr result }
{
    let file = opened(rt, path, file)?;
    file.seek(SeekFrom::Start(at))?;
    file.write_all(bytes)
}

fn sync_to<R: Files + Print>(
    rt: &R,
    path: &Option<String>,
    file: &mut Option<R::File>,
) -> io::Result<()>
    ensures { path.now ≡ None → IsErr result }
{
    opened(rt, path, file)?.sync_all()
}

fn say_to<R: Print>(rt: &R, path: &Option<String>, bytes: &[u8]) -> io::Result<()>
    ensures { path.now ≡ None → IsErr result }
{
    if path.is_none() {
        return Err(io::ErrorKind::NotFound.into());
    }
    rt.write_all(bytes)
}

impl<R: Files + Print> Host for FileHost<'_, R> {
    ghost tells = { false };

    ghost disk = { λ _. fresh [] };

    ghost clock = { λ host. host.clock };

    ghost faults = { λ host. host.faults };

    ghost taken = { λ host. host.taken };

    ghost counted = { λ host told. Prim.cc };

    ghost sound = { λ host told. Prim.cc };

    fn len(&mut self) -> Result<u64, Failed> {
        let outcome = len_of(self.rt, &self.path, &mut self.file);
        counted(outcome, &mut self.clock, &mut self.faults)
    }

    fn read(&mut self, at: u64, into: &mut [u8]) -> Result<(), Failed> {
        let outcome = read_from(self.rt, &self.path, &mut self.file, at, into);
        counted(outcome, &mut self.clock, &mut self.faults)?;
        self.taken = self.taken.saturating_add(into.len() as u64);
        Ok(())
    }

    fn write_at(&mut self, at: u64, bytes: &[u8]) -> Result<(), Failed> {
        let outcome = write_to(self.rt, &self.path, &mut self.file, at, bytes);
        counted(outcome, &mut self.clock, &mut self.faults)
    }

    fn sync(&mut self) -> Result<(), Failed> {
        let outcome = sync_to(self.rt, &self.path, &mut self.file);
        counted(outcome, &mut self.clock, &mut self.faults)
    }

    fn say(&mut self, bytes: &[u8]) -> Result<(), Failed> {
        let outcome = say_to(self.rt, &self.path, bytes);
        counted(outcome, &mut self.clock, &mut self.faults)
    }
}
