//! The entries of one object.

ghost use Rattle.std.specs.Prelude.{◌≡◌, ◌+◌, ◌-◌, ◌≤◌, ℕ, [], ◌∷◌, ◌++◌, take, drop, reverse, length, filter, vec_len, OnOk, OnErr};
ghost use Rattle.std.specs.Vec.{vec_capacity};
ghost use Rattle.oc_model.specs.Maps.{is_in};
ghost use Rattle.oc_model.specs.Stores.{entered};
ghost use Rattle.oc_heap.specs.Places.{place_of, is_at};

use oc_model::value::{Entries, Entry};
use std::alloc::{AllocError, Global};

/// Enters this one in its place by id, instead of one with its id.
pub fn enter(alloc: Global, entries: &mut Entries, entry: Entry) -> Result<(), AllocError>
    ensures ok { OnOk result (entries.new ≡ entered entry entries.old) }
    ensures err { OnErr result (entries.new ≡ entries.old) }
{
    let place = place_of(entries.as_slice(), entry.id);
    if is_at(entries.as_slice(), place, entry.id) {
        entries.set(place, entry);
        return Ok(());
    }
    insert(alloc, entries, place, entry)
}

/// Takes away the entries whose id isn't one of these.
pub fn keep(entries: &mut Entries, ids: &[u32])
    ensures { entries.new ≡ filter (λ e. is_in ids.now e.id) entries.old }
{
    for place in (0..entries.len()).rev() {
        let id = entries.as_slice()[place].id;
        if !is_among(ids, id) {
            entries.remove(place);
        }
    }
}

fn is_among(ids: &[u32], id: u32) -> bool
    ensures { result ≡ is_in ids.now id }
{
    ids.iter().any(|other| id == *other)
}

/// The place of the first entry whose id isn't less, or the length where there is none.
fn place_of(entries: &[Entry], id: u32) -> usize
    ensures value { result ≡ place_of id entries.now }
    ensures within { result ≤ length entries.now }
{
    for (place, entry) in entries.iter().enumerate() {
        if id <= entry.id {
            return place;
        }
    }
    entries.len()
}

/// Whether the entry at the place has this id.
fn is_at(entries: &[Entry], place: usize, id: u32) -> bool
    ensures { result ≡ is_at entries.now place id }
{
    match entries.get(place) {
        Some(entry) => entry.id == id,
        None => false,
    }
}

/// Puts the entry in at the place. The entries move into a list with room for one more, for which memory is taken before the first one moves.
fn insert(
    alloc: Global,
    entries: &mut Entries,
    place: usize,
    entry: Entry,
) -> Result<(), AllocError>
    requires { place ≤ length entries.old }
    ensures ok { OnOk result (entries.new ≡ take place entries.old ++ entry ∷ drop place entries.old) }
    ensures err { OnErr result (entries.new ≡ entries.old) }
{
    let mut list = Vec::with_capacity(alloc, entries.as_slice().len() + 1)?;
    move_from(place, entries, &mut list);
    list.push(entry).unwrap();
    move_from(0, entries, &mut list);
    list.reverse();
    *entries = Entries::from_vec(list);
    Ok(())
}

/// Moves the entries from this place on to the end of the list, the last one first.
fn move_from(place: usize, entries: &mut Entries, list: &mut Vec<Entry>)
    requires within { place ≤ length entries.old }
    requires room { vec_len list.old + (length entries.old - place) ≤ vec_capacity list.old }
    ensures front { entries.new ≡ take place entries.old }
    ensures moved { list.new.items ≡ list.old.items ++ reverse (drop place entries.old) }
    ensures capacity { vec_capacity list.old ≤ vec_capacity list.new }
{
    for left in (place..entries.len()).rev() {
        if let Some(last) = entries.pop() {
            list.push(last).unwrap();
        }
    }
}
