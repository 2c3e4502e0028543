//! `oc_bench PIECE COUNT`: does a piece of work so often, and says what came of it. Whoever starts it
//! takes its time.
#![tactic(auto)]

mod classes;
mod fault;
mod lines;
mod records;

use fault::Fault;
use std::alloc::Global;
use std::env;
use std::process::ExitCode;
use std::rt::Env;

/// What the words ask for.
#[derive(Drop)]
struct Work {
    piece: String,
    count: u32,
}

/// The two words behind the program's name; nothing where they are others.
fn work_of<R: Env + AllocGlobal>(rt: &R) -> Result<Option<Work>, Fault> {
    let mut words = env::args(rt)?.skip(1);
    let (Some(piece), Some(count)) = (words.next(), words.next()) else {
        return Ok(None);
    };
    let Ok(count) = count.as_str().parse::<u32>() else {
        return Ok(None);
    };
    Ok(Some(Work { piece, count }))
}

/// What came of the work, as a number; nothing where there is no such piece.
fn done(alloc: Global, work: &Work) -> Result<Option<u64>, Fault> {
    match work.piece.as_str() {
        "lines" => lines::bytes_answered(alloc, work.count).map(Some),
        "line" => lines::numbers_read(alloc, work.count).map(Some),
        "classes" => classes::classes_declared(alloc, work.count).map(Some),
        "decode" => records::entries_decoded(alloc, work.count).map(Some),
        _ => Ok(None),
    }
}

fn bench<R: Env + Print + AllocGlobal>(rt: &R) -> Result<ExitCode, Fault> {
    let Some(work) = work_of(rt)? else {
        println!(rt; "oc_bench PIECE COUNT")?;
        return Ok(ExitCode::from(2));
    };
    let Some(sum) = done(rt.alloc(), &work)? else {
        println!(rt; "there is no such piece of work")?;
        return Ok(ExitCode::from(2));
    };
    println!(rt; "{} {}: {sum}", work.piece, work.count)?;
    Ok(ExitCode::SUCCESS)
}

fn main(rt: HostRuntime) -> ExitCode {
    bench(&rt).unwrap_or(ExitCode::FAILURE)
}
