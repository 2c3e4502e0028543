//! A store as two plain lists, and steps that are taken by it and by a store in a file alike.

use crate::shapes::{NAME, SIZE, Shape, bytes_of, is_of_bytes, name_of, shapes};
use crate::trial::{Answer, Trial, commit, declare, opened, put, take};
use oc_index::Indexes;
use oc_marshal::Rec;
use oc_schema::Schema;
use oc_store::{Side, Store};
use oc_value::{Atom, Txt};
use quiet_host::Quiet;
use std::alloc::{AllocError, Global};

/// What becomes of a store.
#[derive(Clone, Copy, Debug)]
pub enum Step {
    /// The object of this number is of this class and key.
    Put(u32, u32, u8),
    Take(u32),
    Commit,
    Rollback,
}

/// Of each number from 1 on, what the object is, if there is one, and the number that the next object gets.
#[derive(Drop)]
pub struct Plain {
    pub next: u32,
    pub objects: Vec<Option<Shape>>,
}

/// Both sides.
#[derive(Drop)]
pub struct Sides {
    pub committed: Plain,
    pub session: Plain,
}

fn no_objects(alloc: Global, count: usize) -> Result<Plain, AllocError> {
    Ok(Plain {
        next: 1,
        objects: vec![in alloc; None; count]?,
    })
}

pub fn copy_of(alloc: Global, plain: &Plain) -> Result<Plain, AllocError> {
    Ok(Plain {
        next: plain.next,
        objects: plain.objects.to_vec(alloc)?,
    })
}

/// Both sides are this list.
pub fn sides_of(alloc: Global, plain: &Plain) -> Result<Sides, AllocError> {
    Ok(Sides {
        committed: copy_of(alloc, plain)?,
        session: copy_of(alloc, plain)?,
    })
}

/// Two empty lists for numbers up to this one.
pub fn empty_sides(alloc: Global, count: usize) -> Result<Sides, AllocError> {
    Ok(Sides {
        committed: no_objects(alloc, count)?,
        session: no_objects(alloc, count)?,
    })
}

impl Plain {
    /// The object of this number.
    pub fn at(&self, number: u32) -> Option<Shape> {
        let place = number.saturating_sub(1) as usize;
        match self.objects.get(place) {
            Some(found) => *found,
            None => None,
        }
    }

    fn set(&mut self, number: u32, shape: Option<Shape>) {
        let place = number.saturating_sub(1) as usize;
        if place < self.objects.len() {
            self.objects[place] = shape;
        }
    }

    fn put(&mut self, number: u32, shape: Shape) {
        self.set(number, Some(shape));
        self.next = self.next.max(number.saturating_add(1));
    }
}

// ---- steps

/// A store without objects, of which the five classes are committed.
pub fn started(alloc: Global) -> Result<Option<Trial>, AllocError> {
    let Some(trial) = opened(alloc, &[])? else {
        return Ok(None);
    };
    let Some(schema) = shapes(alloc)? else {
        return Ok(None);
    };
    Ok(declared(trial, schema))
}

fn declared(mut trial: Trial, schema: Schema) -> Option<Trial> {
    if declare(&mut trial, schema) && commit(&mut trial) {
        Some(trial)
    } else {
        None
    }
}

/// Takes the step in the file and in the lists, and tells whether the file took it.
pub fn go(
    alloc: Global,
    trial: &mut Trial,
    sides: &mut Sides,
    step: Step,
) -> Result<bool, AllocError> {
    note(alloc, sides, step)?;
    let answer = answer_of(alloc, trial, step)?;
    Ok(answer == Some(Ok(())))
}

/// Takes the step in the lists.
pub fn note(alloc: Global, sides: &mut Sides, step: Step) -> Result<(), AllocError> {
    match step {
        Step::Put(number, class, key) => sides.session.put(number, Shape { class, key }),
        Step::Take(number) => sides.session.set(number, None),
        Step::Commit => sides.committed = copy_of(alloc, &sides.session)?,
        Step::Rollback => sides.session = copy_of(alloc, &sides.committed)?,
    }
    Ok(())
}

/// Takes the step in the file.
pub fn answer_of(alloc: Global, trial: &mut Trial, step: Step) -> Result<Answer, AllocError> {
    match step {
        Step::Put(number, class, key) => put_shape(alloc, trial, number, Shape { class, key }),
        Step::Take(number) => take(alloc, trial, number),
        Step::Commit => Ok(Some(trial.store.commit(&mut trial.host))),
        Step::Rollback => {
            trial.store.rollback();
            Ok(Some(Ok(())))
        }
    }
}

// Gives the object the record of this class and key.
fn put_shape(
    alloc: Global,
    trial: &mut Trial,
    number: u32,
    shape: Shape,
) -> Result<Answer, AllocError> {
    let bytes = bytes_of(alloc, shape)?;
    put(alloc, trial, number, &bytes)
}

// ---- comparisons

/// Whether the object is this one, or isn't there, on this side of the file.
pub fn has(
    alloc: Global,
    trial: &mut Trial,
    side: Side,
    number: u32,
    want: Option<Shape>,
) -> Result<bool, AllocError> {
    let Trial { host, store } = trial;
    if !is_class(store.class_of(side, number), want) {
        return Ok(false);
    }
    match record_of(store, host, side, number) {
        Some(found) => is_shape(alloc, &found, want),
        None => Ok(false),
    }
}

fn record_of(store: &mut Store, host: &mut Quiet, side: Side, number: u32) -> Option<Option<Rec>> {
    store.fetch(host, side, number).ok()
}

fn is_class(class: Option<u32>, want: Option<Shape>) -> bool {
    match (class, want) {
        (Some(class), Some(shape)) => class == shape.class,
        (None, None) => true,
        _ => false,
    }
}

fn is_shape(alloc: Global, found: &Option<Rec>, want: Option<Shape>) -> Result<bool, AllocError> {
    match (found, want) {
        (Some(rec), Some(shape)) => {
            let bytes = bytes_of(alloc, shape)?;
            Ok(is_of_bytes(alloc, rec, &bytes))
        }
        (None, None) => Ok(true),
        _ => Ok(false),
    }
}

/// Whether this side of the file has what the list has, and no other of these numbers.
pub fn is_like(
    alloc: Global,
    trial: &mut Trial,
    side: Side,
    plain: &Plain,
) -> Result<bool, AllocError> {
    let count = u32::try_from(plain.objects.len()).unwrap_or(0);
    for number in 0..count {
        let number = number.saturating_add(1);
        if !has(alloc, trial, side, number, plain.at(number))? {
            return Ok(false);
        }
    }
    Ok(true)
}

/// Whether the file is like both lists, in its next number and its indexes too.
pub fn are_like(alloc: Global, trial: &mut Trial, sides: &Sides) -> Result<bool, AllocError> {
    if trial.store.next() != sides.session.next {
        return Ok(false);
    }
    if !are_listed(alloc, trial.store.indexes(), &sides.session)? {
        return Ok(false);
    }
    Ok(
        is_like(alloc, trial, Side::Committed, &sides.committed)?
            && is_like(alloc, trial, Side::Session, &sides.session)?,
    )
}

/// Whether the lists are those of these objects.
pub fn are_listed(alloc: Global, indexes: &Indexes, plain: &Plain) -> Result<bool, AllocError> {
    for key in 0..32 {
        let sized = with_key(alloc, plain, key)?;
        if !has_index(alloc, indexes, SIZE, &Atom::Int(key as i128), &sized)? {
            return Ok(false);
        }
        let named = with_name(alloc, plain, name_of(key))?;
        let name = text_of(alloc, name_of(key))?;
        if !has_index(alloc, indexes, NAME, &name, &named)? {
            return Ok(false);
        }
    }
    Ok(true)
}

fn has_index(
    alloc: Global,
    indexes: &Indexes,
    field: u32,
    key: &Atom,
    numbers: &[u32],
) -> Result<bool, AllocError> {
    match indexes.field(field) {
        Some(index) => {
            let found = index.equal(alloc, key)?;
            Ok(found.as_slice() == numbers)
        }
        None => Ok(false),
    }
}

fn text_of(alloc: Global, name: Option<(u8, usize)>) -> Result<Atom, AllocError> {
    match name {
        Some((letter, len)) => Ok(Atom::Text(Some(Txt::from_vec(vec![in alloc; letter; len]?)))),
        None => Ok(Atom::Text(None)),
    }
}

// The shapes, circles and squares of this key.
fn with_key(alloc: Global, plain: &Plain, key: u8) -> Result<Vec<u32>, AllocError> {
    let mut numbers = Vec::new(alloc);
    for place in 0..plain.objects.len() {
        if has_key(plain.objects[place], key) {
            numbers.push(number_of(place))?;
        }
    }
    Ok(numbers)
}

fn has_key(object: Option<Shape>, key: u8) -> bool {
    match object {
        Some(shape) => shape.class <= 3 && shape.key == key,
        None => false,
    }
}

// The shapes, circles and squares of this name.
fn with_name(
    alloc: Global,
    plain: &Plain,
    name: Option<(u8, usize)>,
) -> Result<Vec<u32>, AllocError> {
    let mut numbers = Vec::new(alloc);
    for place in 0..plain.objects.len() {
        if has_name(plain.objects[place], name) {
            numbers.push(number_of(place))?;
        }
    }
    Ok(numbers)
}

fn has_name(object: Option<Shape>, name: Option<(u8, usize)>) -> bool {
    match object {
        Some(shape) => shape.class <= 3 && is_same_name(name_of(shape.key), name),
        None => false,
    }
}

// Empty texts of two letters are one.
fn is_same_name(this: Option<(u8, usize)>, that: Option<(u8, usize)>) -> bool {
    match (this, that) {
        (Some((a, m)), Some((b, n))) => m == n && (m == 0 || a == b),
        (None, None) => true,
        _ => false,
    }
}

fn number_of(place: usize) -> u32 {
    u32::try_from(place).unwrap_or(0).saturating_add(1)
}
