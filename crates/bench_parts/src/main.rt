//! `bench_parts PIECE COUNT`: plans a walk over a graph of so many objects, or puts so many entries into a list, and
//! says how many it reaches or has. `bench_parts slots COUNT FILE` writes so many slots to a file and fetches them,
//! `objects` and `objects_scattered` store so many objects whose numbers ascend or are scattered, and `opened` attaches
//! the store of a file; each says what was asked of the file. Whoever starts it takes its time.
#![tactic(auto)]

ghost use Rattle.std.specs.Prelude.{◌≤◌};

mod counting;
mod fault;
mod inserts;
mod objects;
mod slots;
mod walks;

use counting::{Counting, Counts};
use fault::Fault;
use objects::Keys;
use oc_host::FileHost;
use std::alloc::Global;
use std::env;
use std::process::ExitCode;
use std::rt::{Env, Files};
use walks::Shape;

/// What the words ask for.
#[derive(Drop)]
struct Work {
    piece: String,
    count: u32,
    file: Option<String>,
}

/// The words behind the program's name; nothing where they are others.
fn work_of<R: Env + AllocGlobal>(rt: &R) -> Result<Option<Work>, Fault> {
    let mut words = env::args(rt)?.skip(1);
    let (Some(piece), Some(count)) = (words.next(), words.next()) else {
        return Ok(None);
    };
    let Ok(count) = count.as_str().parse::<u32>() else {
        return Ok(None);
    };
    let file = words.next();
    Ok(Some(Work { piece, count, file }))
}

/// How many objects are reached, or entries are there; nothing where there is no such piece.
fn counted(alloc: Global, work: &Work) -> Result<Option<u64>, Fault> {
    match work.piece.as_str() {
        "store_chain" => walks::stored(alloc, Shape::Chain, work.count).map(Some),
        "store_star" => walks::stored(alloc, Shape::Star, work.count).map(Some),
        "activate_chain" => walks::activated(alloc, Shape::Chain, 0, work.count).map(Some),
        "activate_complete" => walks::activated(alloc, Shape::Complete, 0, work.count).map(Some),
        "activate_cycle" => walks::activated(alloc, Shape::Cycle, 3, work.count).map(Some),
        "index" => inserts::into_index(alloc, work.count).map(Some),
        "map" => inserts::into_map(alloc, work.count).map(Some),
        _ => Ok(None),
    }
}

/// What is done with a file.
#[derive(Clone, Copy, PartialEq, Eq)]
enum FilePiece {
    Slots,
    Objects(Keys),
    Opened,
}

fn file_piece(name: &str) -> Option<FilePiece> {
    match name {
        "slots" => Some(FilePiece::Slots),
        "objects" => Some(FilePiece::Objects(Keys::Ascending)),
        "objects_scattered" => Some(FilePiece::Objects(Keys::Scattered)),
        "opened" => Some(FilePiece::Opened),
        _ => None,
    }
}

/// Does this with the file.
fn work_on<R: Files + Print>(
    alloc: Global,
    host: &mut Counting<'_, R>,
    piece: FilePiece,
    count: u32,
) -> Result<(), Fault>
    requires { count ≤ 2000000 }
{
    match piece {
        FilePiece::Slots => slots::write_and_fetch(alloc, host, count),
        FilePiece::Objects(keys) => objects::store_all(alloc, host, keys, count),
        FilePiece::Opened => objects::attach(alloc, host, count),
    }
}

/// Works on this file, and says what was asked of it.
fn bench_file<R: Files + Print + AllocGlobal>(
    rt: &R,
    work: &Work,
    file: &str,
) -> Result<ExitCode, Fault> {
    let Some(piece) = file_piece(work.piece.as_str()) else {
        println!(rt; "there is no such piece")?;
        return Ok(ExitCode::from(2));
    };
    if work.count > slots::MOST {
        println!(rt; "there are too many")?;
        return Ok(ExitCode::from(2));
    }
    let mut host = Counting::of(FileHost::at(rt.alloc(), rt, file)?);
    work_on(rt.alloc(), &mut host, piece, work.count)?;
    let Counts {
        writes,
        syncs,
        written,
        read,
    } = host.counts;
    println!(rt;
        "{} {}: {writes} writes, {syncs} syncs, {written} bytes written, {read} bytes read",
        work.piece, work.count
    )?;
    Ok(ExitCode::SUCCESS)
}

fn bench<R: Env + Files + Print + AllocGlobal>(rt: &R) -> Result<ExitCode, Fault> {
    let Some(work) = work_of(rt)? else {
        println!(rt; "bench_parts PIECE COUNT [FILE]")?;
        return Ok(ExitCode::from(2));
    };
    if let Some(file) = &work.file {
        return bench_file(rt, &work, file);
    }
    let Some(count) = counted(rt.alloc(), &work)? else {
        println!(rt; "there is no such piece")?;
        return Ok(ExitCode::from(2));
    };
    println!(rt; "{} {}: {count}", work.piece, work.count)?;
    Ok(ExitCode::SUCCESS)
}

fn main(rt: HostRuntime) -> ExitCode {
    bench(&rt).unwrap_or(ExitCode::FAILURE)
}
