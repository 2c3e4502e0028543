//! The chunks, read one by one.

ghost use Rattle.std.specs.Prelude.{◌≡◌, ◌≤◌, ◌++◌, map, length, flat_map, IfOk, OnOk};
ghost use Rattle.oc_chunks.specs.Pieces.{IsSound, chunk_now, chunks_now};
ghost use Rattle.oc_chunks.specs.Reading.{chunk_of};

use crate::entry::Entry;
use crate::piece::{Piece, entries, is_changed};
use std::alloc::{AllocError, Global};

/// A chunk of a list: its entries, its number as a segment if it has one, and whether it changed
/// since it was written.
#[derive(Clone, Copy)]
pub struct ChunkView<'a, E> {
    pub entries: &'a [E],
    pub number: Option<u32>,
    pub changed: bool,
}

/// The chunks, in order.
pub(crate) fn views<'a, E: Entry>(
    alloc: Global,
    pieces: &'a [Piece<E>],
) -> Result<Vec<ChunkView<'a, E>>, AllocError>
    requires { IsSound E.order pieces.now }
    ensures { IfOk result (λ v. map chunk_of v.items ≡ flat_map chunks_now pieces.now) }
{
    let mut views = Vec::with_capacity(alloc, pieces.len())?;
    for piece in pieces {
        push_view(&mut views, piece)?;
    }
    Ok(views)
}

fn push_view<'a, E: Entry>(
    views: &mut Vec<ChunkView<'a, E>>,
    piece: &'a Piece<E>,
) -> Result<(), AllocError>
    requires { piece.now.part.len ≤ length piece.now.part.items.items }
    ensures { OnOk result (map chunk_of views.new.items ≡ map chunk_of views.old.items ++ chunks_now piece.now) }
{
    if piece.part.len == 0 {
        return Ok(());
    }
    views.push(view_of(piece))?;
    Ok(())
}

fn view_of<'a, E>(piece: &'a Piece<E>) -> ChunkView<'a, E>
    requires { piece.now.part.len ≤ length piece.now.part.items.items }
    ensures { chunk_of result ≡ chunk_now piece.now.part }
{
    let part = &piece.part;
    ChunkView {
        entries: entries(part),
        number: part.number,
        changed: is_changed(part),
    }
}
