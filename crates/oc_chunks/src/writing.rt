//! What writing makes of the pieces, and the numbers that they had at the mark.

ghost use Rattle.std.specs.Prelude.{◌≡◌, ◌++◌, false, flat_map, IfOk, IsSome, OnOk};
ghost use Rattle.std.specs.Bool.{OnFalse, OnTrue};
ghost use Rattle.std.specs.Option.{option_to_list};
ghost use Rattle.oc_chunks.specs.Ascending.{Each};
ghost use Rattle.oc_chunks.specs.Chunks.{numbers as numbers_of};
ghost use Rattle.oc_chunks.specs.Opening.{number_from, spare_behind, spare_of, written};
ghost use Rattle.oc_chunks.specs.Pieces.{IsSound, chunks_now, chunks_then};
ghost use Rattle.oc_chunks.specs.Settling.{IsSettled};

use crate::entry::Entry;
use crate::piece::{Piece, Was};
use std::alloc::{AllocError, Global};

/// Marks the pieces as written. Those without a number get the next of these. Gives the numbers that are left.
pub(crate) fn set_written<'a, E: Entry>(pieces: &mut Vec<Piece<E>>, numbers: &'a [u32]) -> &'a [u32]
    requires sound { IsSound E.order pieces.old.items }
    requires settled { Each IsSettled pieces.old.items }
    ensures sound { IsSound E.order pieces.new.items }
    ensures settled { Each IsSettled pieces.new.items }
    ensures chunks { flat_map chunks_now pieces.new.items ≡ written numbers.now (flat_map chunks_now pieces.old.items) }
    ensures marked { flat_map (chunks_then E.order) pieces.new.items ≡ flat_map chunks_now pieces.new.items }
    ensures rest { result.now ≡ spare_of numbers.now (flat_map chunks_now pieces.old.items) }
{
    let mut spare = numbers;
    for at in 0..pieces.len() {
        spare = write_one(&mut pieces[at], spare);
    }
    spare
}

/// Marks the piece as written, and gives the numbers that are left.
fn write_one<'a, E: Drop>(piece: &mut Piece<E>, spare: &'a [u32]) -> &'a [u32]
    ensures piece { piece.new ≡ record piece.old { part = record piece.old.part { number = number_from piece.old.part.number spare.now; changed = false } } }
    ensures rest { result.now ≡ spare_behind piece.old.part.number spare.now }
{
    piece.part.changed = false;
    if piece.part.number.is_some() {
        return spare;
    }
    match spare.split_first() {
        Some((first, rest)) => {
            piece.part.number = Some(*first);
            rest
        }
        None => spare,
    }
}

/// Whether each piece has a number.
pub(crate) fn are_numbered<E: Drop>(pieces: &[Piece<E>]) -> bool
    ensures yes { OnTrue result (Each (λ p. IsSome p.part.number) pieces.now) }
    ensures no { OnFalse result (Each (λ p. IsSome p.part.number) pieces.now → ⊥) }
{
    for piece in pieces {
        if piece.part.number.is_none() {
            return false;
        }
    }
    true
}

/// The numbers that the chunks had at the mark.
pub(crate) fn marked_numbers<E: Entry>(
    alloc: Global,
    pieces: &[Piece<E>],
) -> Result<Vec<u32>, AllocError>
    ensures { IfOk result (λ v. v.items ≡ numbers_of (flat_map (chunks_then E.order) pieces.now)) }
{
    let mut numbers = Vec::new(alloc);
    for piece in pieces {
        push_number(&mut numbers, piece)?;
    }
    Ok(numbers)
}

fn push_number<E: Entry>(numbers: &mut Vec<u32>, piece: &Piece<E>) -> Result<(), AllocError>
    ensures { OnOk result (numbers.new.items ≡ numbers.old.items ++ numbers_of (chunks_then E.order piece.now)) }
{
    if let Some(number) = number_then(piece) {
        numbers.push(number)?;
    }
    Ok(())
}

/// The number that the piece had at the mark.
fn number_then<E: Entry>(piece: &Piece<E>) -> Option<u32>
    ensures { option_to_list result ≡ numbers_of (chunks_then E.order piece.now) }
{
    match &piece.was {
        Was::Itself => piece.part.number,
        Was::Nothing => None,
        Was::Other(old) => old.number,
    }
}
