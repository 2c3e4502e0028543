//! The bounds of chunks, and what an undo gives back.

ghost use Rattle.std.specs.Prelude.{◌≡◌, ◌≤◌};

use oc_chunks::{At, ChunkList, Entry, Written};
use std::alloc::{AllocError, Global};
use std::cmp::Ordering;
use std::test::Fail;

/// A number, of which a chunk takes four.
#[derive(Drop)]
struct Key {
    at: u32,
}

impl Entry for Key {
    ghost use Rattle.std.specs.Ordering.{nat_cmp};
    ghost use Rattle.std.specs.Cmp.{nat_cmp_total};
    ghost use Rattle.std.proofs.lemmas.Cmp.{on_total};
    ghost use Rattle.std.proofs.Common.{arith};

    ghost order = { λ a b. nat_cmp a.at b.at };

    ghost bytes = { λ _. 1000 };

    ghost MOST = { 8 };

    const MOST: usize = 8;

    fn compare(&self, other: &Self) -> Ordering {
        self.at.cmp(&other.at)
    }

    fn len(&self) -> usize {
        1000
    }

    fn copy(&self, _alloc: Global) -> Result<Self, AllocError> {
        Ok(Key { at: self.at })
    }

    ghost total = { on_total (λ k. k.at) nat_cmp_total };

    ghost few = { Prim.omega arith };
}

// Whether the chunks have these lengths, first entries and marks of change.
fn is_like(
    alloc: Global,
    list: &ChunkList<Key>,
    want: &[(usize, u32, bool)],
) -> Result<bool, AllocError> {
    let chunks = list.chunks(alloc)?;
    if chunks.len() != want.len() {
        return Ok(false);
    }
    for (chunk, (len, first, changed)) in chunks.iter().zip(want) {
        let begins = chunk.entries.first().is_some_and(|key| key.at == *first);
        if chunk.entries.len() != *len || !begins || chunk.changed != *changed {
            return Ok(false);
        }
    }
    Ok(true)
}

#[test]
fn a_full_chunk_at_the_end_stays_and_any_other_is_halved(rt: HostRuntime) -> Result<(), Fail> {
    let mut list = ChunkList::new(rt.alloc());
    for at in [10, 20, 30, 40, 50, 60, 70, 80, 90, 20, 25] {
        list.add(rt.alloc(), Key { at })?;
    }
    assert!(rt;
        is_like(
            rt.alloc(),
            &list,
            &[(2, 10, true), (3, 25, true), (4, 50, true), (1, 90, true)]
        )?
    );
    Ok(())
}

#[test]
fn undo_gives_the_chunks_of_the_mark_back(rt: HostRuntime) -> Result<(), Fail> {
    let mut list = ChunkList::new(rt.alloc());
    for at in [10, 20, 30, 40, 50, 60] {
        list.add(rt.alloc(), Key { at })?;
    }
    list.mark();
    for at in [10, 20, 30, 40, 50] {
        let key = Key { at };
        assert!(rt; list.remove(&At { entry: &key }));
        assert!(rt; !list.remove(&At { entry: &key }));
    }
    assert!(rt; is_like(rt.alloc(), &list, &[(1, 60, true)])?);
    for at in [55, 54, 53, 52, 15] {
        list.add(rt.alloc(), Key { at })?;
    }
    list.undo();
    assert!(rt; is_like(rt.alloc(), &list, &[(4, 10, true), (2, 50, true)])?);
    Ok(())
}

// The list of chunks of these keys, numbered from 7 on.
fn list_of(alloc: Global, chunks: &[&[u32]]) -> Result<Option<ChunkList<Key>>, AllocError> {
    let mut read = Vec::new(alloc);
    let mut number = 7;
    for keys in chunks {
        let mut entries = Vec::new(alloc);
        for at in *keys {
            entries.push(Key { at: *at })?;
        }
        read.push(Written { entries, number })?;
        number = number.saturating_add(1);
    }
    ChunkList::of(alloc, read)
}

// Whether the list has just the keys that were read and not removed.
fn has_rest(list: &ChunkList<Key>, chunks: &[&[u32]], removed: &[u32]) -> bool {
    for keys in chunks {
        for at in *keys {
            let key = Key { at: *at };
            let is_gone = removed.iter().any(|other| *other == *at);
            if list.find(&At { entry: &key }).is_some() == is_gone {
                return false;
            }
        }
    }
    true
}

#[test]
fn small_neighbours_are_joined_and_undone(rt: HostRuntime) -> Result<(), Fail> {
    // What is read, what is removed, and what it comes to: two entries are half of a chunk's bytes.
    let table: [(&[&[u32]], &[u32], &[(usize, u32, bool)], &[u32]); 5] = [
        (
            &[&[10], &[20], &[30]],
            &[],
            &[(1, 10, false), (1, 20, false), (1, 30, false)],
            &[7, 8, 9],
        ),
        (
            &[&[10, 11], &[20], &[30]],
            &[11],
            &[(2, 10, true), (1, 30, false)],
            &[7, 9],
        ),
        (
            &[&[10], &[20], &[30, 31]],
            &[31],
            &[(1, 10, false), (2, 20, true)],
            &[7, 8],
        ),
        (
            &[&[10, 11], &[20], &[30, 31], &[40]],
            &[11, 20, 31],
            &[(2, 10, true), (1, 40, false)],
            &[7, 10],
        ),
        (
            &[&[10, 11], &[20, 21, 22]],
            &[11],
            &[(1, 10, true), (3, 20, false)],
            &[7, 8],
        ),
    ];
    for (chunks, removed, want, numbers) in table {
        let mut list = list_of(rt.alloc(), chunks)?.unwrap_or(ChunkList::new(rt.alloc()));
        for at in removed {
            list.remove(&At {
                entry: &Key { at: *at },
            });
        }
        list.join_small(rt.alloc())?;
        list.join_small(rt.alloc())?;
        assert!(rt; is_like(rt.alloc(), &list, want)?);
        assert!(rt; has_rest(&list, chunks, removed));
        list.undo();
        assert!(rt; has_rest(&list, chunks, &[]));
        assert_eq!(rt; list.chunks(rt.alloc())?.len(), chunks.len());
        for at in removed {
            list.remove(&At {
                entry: &Key { at: *at },
            });
        }
        list.join_small(rt.alloc())?;
        list.set_written(&[]);
        assert_eq!(rt; list.marked_numbers(rt.alloc())?.as_slice(), numbers);
    }
    Ok(())
}

#[test]
fn a_list_that_was_joined_goes_on(rt: HostRuntime) -> Result<(), Fail> {
    let chunks: &[&[u32]] = &[&[10, 11], &[20], &[30, 31], &[40, 50, 60]];
    let mut list = list_of(rt.alloc(), chunks)?.unwrap_or(ChunkList::new(rt.alloc()));
    for at in [11, 20, 31] {
        list.remove(&At { entry: &Key { at } });
    }
    list.join_small(rt.alloc())?;
    assert!(rt; is_like(rt.alloc(), &list, &[(2, 10, true), (3, 40, false)])?);
    for at in [5, 20, 35] {
        list.add(rt.alloc(), Key { at })?;
    }
    assert!(rt;
        is_like(
            rt.alloc(),
            &list,
            &[(2, 5, true), (3, 20, true), (3, 40, false)]
        )?
    );
    for at in [5, 10, 20, 35, 30] {
        assert!(rt; list.remove(&At { entry: &Key { at } }));
    }
    list.add(rt.alloc(), Key { at: 35 })?;
    assert!(rt; is_like(rt.alloc(), &list, &[(1, 35, true), (3, 40, false)])?);
    list.undo();
    let was = [
        (2, 10, false),
        (1, 20, false),
        (2, 30, false),
        (3, 40, false),
    ];
    assert!(rt; is_like(rt.alloc(), &list, &was)?);
    Ok(())
}

#[test]
fn chunks_that_are_read_must_ascend(rt: HostRuntime) -> Result<(), Fail> {
    let table: [(&[&[u32]], bool); 6] = [
        (&[], true),
        (&[&[1, 2, 3], &[4]], true),
        (&[&[1, 2], &[]], false),
        (&[&[2, 1]], false),
        (&[&[1, 2], &[2, 3]], false),
        (&[&[3], &[1]], false),
    ];
    for (chunks, is_list) in table {
        assert_eq!(rt; list_of(rt.alloc(), chunks)?.is_some(), is_list);
    }
    Ok(())
}

#[test]
fn a_chunk_that_was_read_is_cut_at_its_first_insert(rt: HostRuntime) -> Result<(), Fail> {
    let read = list_of(rt.alloc(), &[&[10, 20, 30, 40, 50, 60, 70, 80], &[90]])?;
    let mut list = read.unwrap_or(ChunkList::new(rt.alloc()));
    assert!(rt; is_like(rt.alloc(), &list, &[(8, 10, false), (1, 90, false)])?);
    list.add(rt.alloc(), Key { at: 45 })?;
    let cut = [(4, 10, true), (2, 45, true), (3, 60, true), (1, 90, false)];
    assert!(rt; is_like(rt.alloc(), &list, &cut)?);
    assert_eq!(rt;
        list.marked_numbers(rt.alloc())?.as_slice(),
        [7, 8].as_slice()
    );
    list.set_written(&[20, 21]);
    assert!(rt;
        is_like(
            rt.alloc(),
            &list,
            &[
                (4, 10, false),
                (2, 45, false),
                (3, 60, false),
                (1, 90, false)
            ]
        )?
    );
    assert_eq!(rt;
        list.marked_numbers(rt.alloc())?.as_slice(),
        [7, 20, 21, 8].as_slice()
    );
    Ok(())
}

#[test]
fn what_lies_between_two_entries(rt: HostRuntime) -> Result<(), Fail> {
    let read = list_of(rt.alloc(), &[&[10, 20, 30], &[40, 50]])?;
    let mut list = read.unwrap_or(ChunkList::new(rt.alloc()));
    for (low, high, count) in [
        (0, 60, 5),
        (10, 40, 3),
        (15, 45, 3),
        (30, 30, 0),
        (40, 60, 1),
    ] {
        let (low, high) = (Key { at: low }, Key { at: high });
        let (low, high) = (At { entry: &low }, At { entry: &high });
        assert_eq!(rt; list.count(&low, &high), count);
        let mut sum: u64 = 0;
        for slice in &list.between(rt.alloc(), &low, &high)? {
            sum = sum.wrapping_add(slice.len() as u64);
        }
        assert_eq!(rt; sum, count);
    }
    list.put(rt.alloc(), Key { at: 40 })?;
    list.put(rt.alloc(), Key { at: 45 })?;
    for (at, is_there) in [(40, true), (45, true), (46, false)] {
        let key = Key { at };
        assert_eq!(rt; list.find(&At { entry: &key }).is_some(), is_there);
    }
    assert!(rt; is_like(rt.alloc(), &list, &[(3, 10, false), (3, 40, true)])?);
    Ok(())
}
