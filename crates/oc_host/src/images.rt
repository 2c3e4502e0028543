// What a stop in a call leaves of a file in memory.
ghost use Rattle.std.specs.Prelude.{◌≡◌, ◌<◌, length, replicate, IfOk, OnOk};
ghost use Rattle.oc_host.specs.Disk.{Disk, over};
ghost use Rattle.oc_host.specs.ImageSteps.{AreImages};
ghost use Rattle.oc_host.specs.Images.{filled, image_at, during, with_write};
ghost use Rattle.oc_host.specs.Replay.{fresh, replay, after_call};

use crate::memory::Call;
use std::alloc::{AllocError, Global};

/// What a stop leaves of the ranges that no sync has covered.
#[derive(Clone, Copy, Debug, PartialEq, Eq)]
pub enum Fill {
    /// What was written.
    Kept,
    /// Nothing: the bytes and the length of the last sync.
    Lost,
    /// This byte at each place.
    Byte(u8),
}

// The file as it reads, as it was at the last sync, and that with each range filled that was written since.
#[derive(Drop)]
pub(crate) struct Images {
    pub(crate) kept: Vec<u8>,
    pub(crate) lost: Vec<u8>,
    pub(crate) filled: Vec<u8>,
}

/// The file that a stop in the call with this number, from 0, leaves.
pub(crate) fn image_in(
    alloc: Global,
    start: &[u8],
    calls: &[Call],
    number: usize,
    fill: Fill,
) -> Result<Vec<u8>, AllocError>
    requires { number < length calls.now }
    ensures { IfOk result (λ v. v.items ≡ image_at fill (fresh start.now) calls.now number) }
{
    let (earlier, _) = calls.split_at(number);
    let call = &calls[number];
    match fill {
        Fill::Kept => written(alloc, &replayed(alloc, start, earlier, 0)?.kept, call),
        Fill::Lost => Ok(replayed(alloc, start, earlier, 0)?.lost),
        Fill::Byte(byte) => {
            let images = replayed(alloc, start, earlier, byte)?;
            covered(alloc, &images.filled, call, byte)
        }
    }
}

// The images after these calls.
fn replayed(alloc: Global, start: &[u8], calls: &[Call], byte: u8) -> Result<Images, AllocError>
    ensures { IfOk result (AreImages byte (replay (fresh start.now) calls.now)) }
{
    let mut images = Images {
        kept: start.to_vec(alloc)?,
        lost: start.to_vec(alloc)?,
        filled: start.to_vec(alloc)?,
    };
    for call in calls {
        images = step(alloc, &images, call, byte)?;
    }
    Ok(images)
}

// The images after one call more.
fn step(alloc: Global, images: &Images, call: &Call, byte: u8) -> Result<Images, AllocError>
    ensures { IfOk result (λ new.
        (d : Disk) → AreImages byte d images.now → AreImages byte (after_call call.now d) new) }
{
    let kept = match call {
        Call::Wrote(_, _, false) => images.kept.to_vec(alloc)?,
        _ => written(alloc, &images.kept, call)?,
    };
    let lost = match call {
        Call::Synced => images.kept.to_vec(alloc)?,
        _ => images.lost.to_vec(alloc)?,
    };
    let filled = match call {
        Call::Synced => images.kept.to_vec(alloc)?,
        _ => covered(alloc, &images.filled, call, byte)?,
    };
    Ok(Images { kept, lost, filled })
}

// The file with what this call writes.
fn written(alloc: Global, file: &[u8], call: &Call) -> Result<Vec<u8>, AllocError>
    ensures { IfOk result (λ v. v.items ≡ with_write call.now file.now) }
{
    match call {
        Call::Wrote(at, bytes, _) => overlaid(alloc, file, *at as usize, bytes),
        Call::Looked | Call::Synced | Call::Said(_, _) => file.to_vec(alloc),
    }
}

// The file with the range filled that this call writes.
fn covered(alloc: Global, file: &[u8], call: &Call, byte: u8) -> Result<Vec<u8>, AllocError>
    ensures { IfOk result (λ v. (d : Disk) → file.now ≡ filled byte d.spans d.synced → v.items ≡ filled byte (during call.now d).spans d.synced) }
{
    match call {
        Call::Wrote(at, bytes, _) => {
            let fill = repeated(alloc, byte, bytes.len())?;
            overlaid(alloc, file, *at as usize, &fill)
        }
        Call::Looked | Call::Synced | Call::Said(_, _) => file.to_vec(alloc),
    }
}

fn repeated(alloc: Global, byte: u8, count: usize) -> Result<Vec<u8>, AllocError>
    ensures { IfOk result (λ v. v.items ≡ replicate count byte) }
{
    vec![in alloc; byte; count]
}

// The file with these bytes over those from `at` on.
fn overlaid(alloc: Global, file: &[u8], at: usize, bytes: &[u8]) -> Result<Vec<u8>, AllocError>
    ensures { IfOk result (λ v. v.items ≡ over at bytes.now file.now) }
{
    let cut = at.min(file.len());
    let mut next = file[..cut].to_vec(alloc)?;
    next.extend_from_slice(bytes)?;
    if at < file.len() && bytes.len() < file.len() - at {
        next.extend_from_slice(&file[at + bytes.len()..])?;
    }
    Ok(next)
}

/// What these calls said.
pub(crate) fn said_by(alloc: Global, start: &[u8], calls: &[Call]) -> Result<Vec<u8>, AllocError>
    ensures { IfOk result (λ v. v.items ≡ (replay (fresh start.now) calls.now).said) }
{
    let mut said = Vec::new(alloc);
    for call in calls {
        say(&mut said, call)?;
    }
    Ok(said)
}

// What was said before this call, and then what it said.
fn say(said: &mut Vec<u8>, call: &Call) -> Result<(), AllocError>
    ensures { OnOk result ((d : Disk) → said.old.items ≡ d.said → said.new.items ≡ (after_call call.now d).said) }
{
    if let Call::Said(piece, count) = call {
        said.extend_from_slice(&piece[..(*count).min(piece.len())])?;
    }
    Ok(())
}
