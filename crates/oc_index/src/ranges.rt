//! Ends of ranges of values, and the places in an index where they lie.

ghost use Rattle.std.specs.Prelude.{◌≡◌, not, IfSome};
ghost use Rattle.std.specs.Ordering.{is_gt};
ghost use Rattle.oc_index.specs.Ranges.{is_from, is_upto, edge_side};

use crate::items::IndexItem;
use oc_chunks::Cut;
use oc_value::{Atom, compare};
use std::cmp::Ordering;

/// An end of a range of values: none, a value that is in the range, or one that is left out.
#[derive(Drop)]
pub enum End {
    Free,
    At(Atom),
    Past(Atom),
}

/// A place in an index: in front of all entries, before or behind those of a value, or behind all.
#[derive(Drop)]
pub(crate) enum Edge<'a> {
    Front,
    Before(&'a Atom),
    Behind(&'a Atom),
    Back,
}

impl<'a> Cut<IndexItem> for Edge<'a> {
    ghost use Rattle.oc_index.specs.Edges.{edge_parts};

    ghost side = { edge_side };

    fn side(&self, entry: &IndexItem) -> Ordering {
        match self {
            Edge::Front => Ordering::Greater,
            Edge::Before(key) => {
                if compare(&entry.key, key).is_lt() {
                    Ordering::Less
                } else {
                    Ordering::Greater
                }
            }
            Edge::Behind(key) => {
                if compare(&entry.key, key).is_gt() {
                    Ordering::Greater
                } else {
                    Ordering::Less
                }
            }
            Edge::Back => Ordering::Less,
        }
    }

    ghost parts = { edge_parts };
}

/// The place where a range begins that has this low end.
pub(crate) fn low_edge<'a>(end: &'a End) -> Edge<'a>
    ensures { (e : IndexItem) → is_gt (edge_side result e) ≡ is_from end.now e.key }
{
    match end {
        End::Free => Edge::Front,
        End::At(key) => Edge::Before(key),
        End::Past(key) => Edge::Behind(key),
    }
}

/// The place where a range ends that has this high end.
pub(crate) fn high_edge<'a>(end: &'a End) -> Edge<'a>
    ensures { (e : IndexItem) → not (is_gt (edge_side result e)) ≡ is_upto end.now e.key }
{
    match end {
        End::Free => Edge::Back,
        End::At(key) => Edge::Behind(key),
        End::Past(key) => Edge::Before(key),
    }
}
