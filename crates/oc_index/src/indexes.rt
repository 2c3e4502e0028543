//! The lists of a store.

ghost use Rattle.std.specs.Prelude.{◌≡◌, ◌≤◌, ◌==◌, ◌++◌, ◌∷◌, [], ℕ, not, map, filter, true, false, IfOk, IsSome, IfSome, IfNone, OnOk, OnErr};
ghost use Rattle.std.specs.Bool.{OnTrue};
ghost use Rattle.std.specs.List.{find, flat_map, list_any};
ghost use Rattle.std.specs.Option.{option_map};
ghost use Rattle.oc_model.specs.Lists.{placed};
ghost use Rattle.oc_chunks.specs.Ascending.{replaced, Each, Pairs};
ghost use Rattle.oc_chunks.specs.Chunks.{joined, left, numbers as segments_of, IsCutFrom};
ghost use Rattle.oc_chunks.specs.Joining.{Joins, NoneSmall};
ghost use Rattle.oc_chunks.specs.Opening.{spare_of, written};
ghost use Rattle.oc_index.specs.Indexed.{ended, field_at, field_cmp, ids_of, is_of, marked_field, marked_now, now_of, then_of, undone, undone_field, written_fields, AreInOrder, Changes, Enters, IsJoined, IsPlace, JoinsFields, Leaves};
ghost use Rattle.oc_index.specs.Items.{extent_cmp};
ghost use Rattle.oc_index.specs.Ranges.{is_entry, is_numbered};

use crate::committing::{indexed_in, join_in, marked_numbers_in, write_in};
use crate::extents::Extents;
use crate::field_index::FieldIndex;
use crate::ordering::put_in_order;
use oc_value::{Atom, Base};
use std::alloc::{AllocError, Global};
use std::marker::Model;

/// An index, whether it is there, and whether it was at the mark.
#[derive(Drop)]
pub(crate) struct Field {
    pub(crate) id: u32,
    pub(crate) index: FieldIndex,
    pub(crate) is_here: bool,
    pub(crate) was_there: bool,
}

/// The list of all objects, and the index of each indexed field, in the order of the fields' ids. It
/// keeps what they were at the last mark.
#[derive(Drop)]
pub struct Indexes {
    extents: Extents,
    fields: Vec<Field>,
}

impl Model for Indexes {
    ghost use Rattle.std.specs.List.{flat_map};
    ghost use Rattle.oc_index.specs.Indexed.{StoreLists};

    ghost Value = { StoreLists };

    ghost use Rattle.oc_index.specs.Indexed.{now_of, then_of, AreInOrder};

    ghost view = { λ i. record { extents = i.extents; fields = flat_map now_of i.fields.items; marked = flat_map then_of i.fields.items } };

    ghost invariant = { λ i. AreInOrder i.fields.items };
}

impl Indexes {
    /// No objects and no indexes, at the mark too.
    pub fn new(alloc: Global) -> Indexes
        ensures extents { (result.extents.chunks ≡ []) × (result.extents.marked ≡ []) }
        ensures fields { result.fields ≡ [] }
        ensures marked { result.marked ≡ [] }
    {
        Indexes {
            extents: Extents::new(alloc),
            fields: Vec::new(alloc),
        }
    }

    /// Extents that were read, and no indexes.
    pub fn from_extents(alloc: Global, extents: Extents) -> Indexes
        ensures extents { result.extents ≡ extents }
        ensures fields { result.fields ≡ [] }
        ensures marked { result.marked ≡ [] }
    {
        Indexes {
            extents,
            fields: Vec::new(alloc),
        }
    }

    /// The list of all objects.
    pub fn extents(&self) -> &Extents
        ensures { result.now ≡ self.now.extents }
    {
        &self.extents
    }

    /// The index of the field, if it has one.
    pub fn field(&self, id: u32) -> Option<&FieldIndex>
        ensures { option_map (λ f. f.now) result ≡ field_at id self.now.fields }
    {
        field_in(self.fields.as_slice(), id)
    }

    /// The fields that have an index, each with the kind of its values, in the order of their ids.
    pub fn indexed(&self, alloc: Global) -> Result<Vec<(u32, Base)>, AllocError>
        ensures fields { IfOk result (λ v. v.items ≡ map (λ f. (f.0, f.1.base)) self.now.fields) }
        ensures order { Pairs (λ m n. m ≤ n) (map (λ f. f.0) self.now.fields) }
    {
        indexed_in(alloc, self.fields.as_slice())
    }

    /// Gives the field an index that was read. It was there at the mark, as it was at its own.
    pub fn put_field(&mut self, id: u32, index: FieldIndex) -> Result<(), AllocError>
        ensures extents { self.new.extents ≡ self.old.extents }
        ensures fields { OnOk result (self.new.fields ≡ placed field_cmp (id, index) self.old.fields) }
        ensures marked { OnOk result (self.new.marked ≡ placed field_cmp (id, undone index) self.old.marked) }
        ensures err { OnErr result (self.new ≡ self.old) }
    {
        put_in_order(&mut self.fields, read(id, index))?;
        Ok(())
    }

    /// Gives the field an empty index.
    pub fn start_field(&mut self, alloc: Global, id: u32, base: Base) -> Result<(), AllocError>
        ensures extents { self.new.extents ≡ self.old.extents }
        ensures fields { OnOk result (self.new.fields ≡ placed field_cmp (id, record { base = base; chunks = []; marked = [] }) self.old.fields) }
        ensures marked { self.new.marked ≡ self.old.marked }
        ensures err { OnErr result (self.new ≡ self.old) }
    {
        put_in_order(&mut self.fields, started(alloc, id, base))?;
        Ok(())
    }

    /// Takes the index of the field away, if it has one. It takes no memory.
    pub fn end_field(&mut self, id: u32)
        ensures extents { self.new.extents ≡ self.old.extents }
        ensures fields { self.new.fields ≡ filter (λ f. not (f.0 == id)) self.old.fields }
        ensures marked { self.new.marked ≡ self.old.marked }
    {
        end_in(&mut self.fields, id);
    }

    /// Puts the object in, in place of the one of its number if there is one.
    pub fn put(&mut self, alloc: Global, number: u32, class: u32) -> Result<(), AllocError>
        ensures entries { OnOk result (joined self.new.extents.chunks ≡ replaced extent_cmp (record { number = number; class = class }) (joined self.old.extents.chunks)) }
        ensures segments { OnOk result (segments_of self.new.extents.chunks ≡ segments_of self.old.extents.chunks) }
        ensures chunks { OnOk result (IsCutFrom (λ _. 8) 512 self.old.extents.chunks self.new.extents.chunks) }
        ensures extents_marked { OnOk result (self.new.extents.marked ≡ self.old.extents.marked) }
        ensures fields { (self.new.fields ≡ self.old.fields) × (self.new.marked ≡ self.old.marked) }
        ensures err { OnErr result (self.new ≡ self.old) }
    {
        self.extents.put(alloc, number, class)?;
        Ok(())
    }

    /// Takes the object of this number out, and tells its class, if there is one. It takes no memory.
    pub fn take(&mut self, number: u32) -> Option<u32>
        ensures class { result ≡ option_map (λ e. e.class) (find (is_numbered number) (joined self.old.extents.chunks)) }
        ensures chunks { self.new.extents.chunks ≡ flat_map (left (is_numbered number)) self.old.extents.chunks }
        ensures extents_marked { self.new.extents.marked ≡ self.old.extents.marked }
        ensures fields { (self.new.fields ≡ self.old.fields) × (self.new.marked ≡ self.old.marked) }
    {
        self.extents.remove(number)
    }

    /// Enters the object with its value into the index of the field. An entry that is there stays as
    /// it is.
    pub fn add(&mut self, alloc: Global, id: u32, key: Atom, number: u32) -> Result<(), AllocError>
        requires { IsSome (field_at id self.old.fields) }
        ensures extents { self.new.extents ≡ self.old.extents }
        ensures fields { OnOk result (Changes id (Enters key number) self.old.fields self.new.fields) }
        ensures marked { self.new.marked ≡ self.old.marked }
        ensures err { OnErr result (self.new ≡ self.old) }
    {
        add_in(alloc, &mut self.fields, id, key, number)?;
        Ok(())
    }

    /// Takes the entry of this value and number out of the index of the field, if there is one. It
    /// takes no memory.
    pub fn remove(&mut self, id: u32, key: &Atom, number: u32) -> bool
        requires { IsSome (field_at id self.old.fields) }
        ensures there { IfSome (field_at id self.old.fields) (λ f. result ≡ list_any (is_entry key.now number) (joined f.chunks)) }
        ensures extents { self.new.extents ≡ self.old.extents }
        ensures fields { Changes id (Leaves key.now number) self.old.fields self.new.fields }
        ensures marked { self.new.marked ≡ self.old.marked }
    {
        remove_in(&mut self.fields, id, key, number)
    }

    /// Whether the lists are as they were at the mark, and the indexes those that there were. Where a
    /// change was made and undone by another since, it may say that they aren't. It takes no memory.
    pub fn is_marked(&self) -> bool
        ensures extents { OnTrue result (self.now.extents.marked ≡ self.now.extents.chunks) }
        ensures fields { OnTrue result (self.now.marked ≡ self.now.fields) }
        ensures each { OnTrue result (Each (λ f. f.1.marked ≡ f.1.chunks) self.now.fields) }
    {
        self.extents.is_marked() && are_marked(self.fields.as_slice())
    }

    /// The lists as they are become what `undo` gives back. It takes no memory.
    pub fn mark(&mut self)
        ensures extents { (self.new.extents.chunks ≡ self.old.extents.chunks) × (self.new.extents.marked ≡ self.old.extents.chunks) }
        ensures fields { self.new.fields ≡ map (λ f. (f.0, marked_now f.1)) self.old.fields }
        ensures marked { self.new.marked ≡ self.new.fields }
    {
        self.extents.mark();
        mark_fields(&mut self.fields);
    }

    /// Before a commit: joins neighbours, of each list, of which one has changed and that together
    /// have at most half of the bound. What is joined has the number of the first, and has changed.
    /// Without memory some may be joined and others not yet.
    pub fn join_small(&mut self, alloc: Global) -> Result<(), AllocError>
        ensures entries { joined self.new.extents.chunks ≡ joined self.old.extents.chunks }
        ensures chunks { Joins (λ _. 8) 512 self.old.extents.chunks self.new.extents.chunks }
        ensures extents_marked { self.new.extents.marked ≡ self.old.extents.marked }
        ensures fields { JoinsFields self.old.fields self.new.fields }
        ensures marked { self.new.marked ≡ self.old.marked }
        ensures none { OnOk result (NoneSmall (λ _. 8) 512 self.new.extents.chunks) }
        ensures none_in_fields { OnOk result (Each IsJoined self.new.fields) }
    {
        self.extents.join_small(alloc)?;
        join_in(alloc, &mut self.fields)?;
        Ok(())
    }

    /// The numbers of the chunks as they were at the mark: those of the extents, and then those of
    /// each index that was there.
    pub fn marked_numbers(&self, alloc: Global) -> Result<Vec<u32>, AllocError>
        ensures { IfOk result (λ v. v.items ≡ segments_of self.now.extents.marked ++ flat_map (λ f. segments_of f.1.chunks) self.now.marked) }
    {
        let numbers = self.extents.marked_numbers(alloc)?;
        marked_numbers_in(alloc, self.fields.as_slice(), numbers)
    }

    /// What follows a commit: each chunk of each list is written, and those without a number as a
    /// segment have got the next of these, first those of the extents, and then those of the indexes
    /// in the order of the fields' ids. So is the mark. It takes no memory.
    pub fn set_written(&mut self, numbers: &[u32])
        ensures extents { (self.new.extents.chunks ≡ written numbers.now self.old.extents.chunks) × (self.new.extents.marked ≡ self.new.extents.chunks) }
        ensures fields { self.new.fields ≡ written_fields (spare_of numbers.now self.old.extents.chunks) self.old.fields }
        ensures marked { self.new.marked ≡ self.new.fields }
    {
        let rest = self.extents.set_written(numbers);
        write_in(&mut self.fields, rest);
        mark_fields(&mut self.fields);
    }

    /// The lists as they were at the mark: which fields have an index, and the chunks with their
    /// bounds, numbers and marks of change. It takes no memory.
    pub fn undo(&mut self)
        ensures extents { (self.new.extents.chunks ≡ self.old.extents.marked) × (self.new.extents.marked ≡ self.old.extents.marked) }
        ensures fields { self.new.fields ≡ self.old.marked }
        ensures marked { self.new.marked ≡ self.old.marked }
    {
        self.extents.undo();
        undo_fields(&mut self.fields);
    }
}

/// An empty index that wasn't there at the mark.
fn started(alloc: Global, id: u32, base: Base) -> Field
    ensures { result ≡ record { id = id; index = record { base = base; chunks = []; marked = [] }; is_here = true; was_there = false } }
{
    Field {
        id,
        index: FieldIndex::new(alloc, base),
        is_here: true,
        was_there: false,
    }
}

/// An index that is there and was there at the mark.
fn read(id: u32, index: FieldIndex) -> Field
    ensures { result ≡ record { id = id; index = index; is_here = true; was_there = true } }
{
    Field {
        id,
        index,
        is_here: true,
        was_there: true,
    }
}

/// The first place of an index of this field.
fn place_in(fields: &[Field], id: u32) -> Option<usize>
    ensures there { IfSome result (IsPlace id fields.now) }
    ensures none { IfNone result (Each (λ f. is_of id f ≡ false) fields.now) }
{
    for at in 0..fields.len() {
        if is_here(&fields[at], id) {
            return Some(at);
        }
    }
    None
}

fn is_here(field: &Field, id: u32) -> bool
    ensures { result ≡ is_of id field.now }
{
    field.is_here && field.id == id
}

fn field_in<'a>(fields: &'a [Field], id: u32) -> Option<&'a FieldIndex>
    ensures { option_map (λ f. f.now) result ≡ field_at id (flat_map now_of fields.now) }
{
    match place_in(fields, id) {
        Some(at) => Some(&fields[at].index),
        None => None,
    }
}

fn add_in(
    alloc: Global,
    fields: &mut Vec<Field>,
    id: u32,
    key: Atom,
    number: u32,
) -> Result<(), AllocError>
    requires { IsSome (field_at id (flat_map now_of fields.old.items)) }
    ensures fields { OnOk result (Changes id (Enters key number) (flat_map now_of fields.old.items) (flat_map now_of fields.new.items)) }
    ensures marked { flat_map then_of fields.new.items ≡ flat_map then_of fields.old.items }
    ensures ids { ids_of fields.new.items ≡ ids_of fields.old.items }
    ensures err { OnErr result (flat_map now_of fields.new.items ≡ flat_map now_of fields.old.items) }
{
    let Some(at) = place_in(fields, id) else {
        unreachable!()
    };
    fields[at].index.add(alloc, key, number)
}

fn remove_in(fields: &mut Vec<Field>, id: u32, key: &Atom, number: u32) -> bool
    requires { IsSome (field_at id (flat_map now_of fields.old.items)) }
    ensures there { IfSome (field_at id (flat_map now_of fields.old.items)) (λ f. result ≡ list_any (is_entry key.now number) (joined f.chunks)) }
    ensures fields { Changes id (Leaves key.now number) (flat_map now_of fields.old.items) (flat_map now_of fields.new.items) }
    ensures marked { flat_map then_of fields.new.items ≡ flat_map then_of fields.old.items }
    ensures ids { ids_of fields.new.items ≡ ids_of fields.old.items }
{
    let Some(at) = place_in(fields, id) else {
        unreachable!()
    };
    fields[at].index.remove(key, number)
}

fn end_in(fields: &mut Vec<Field>, id: u32)
    ensures fields { flat_map now_of fields.new.items ≡ filter (λ f. not (f.0 == id)) (flat_map now_of fields.old.items) }
    ensures marked { flat_map then_of fields.new.items ≡ flat_map then_of fields.old.items }
    ensures ids { ids_of fields.new.items ≡ ids_of fields.old.items }
{
    for at in 0..fields.len() {
        end_one(&mut fields[at], id);
    }
}

fn end_one(field: &mut Field, id: u32)
    ensures { field.new ≡ ended id field.old }
{
    if field.id == id {
        field.is_here = false;
    }
}

/// Whether each index is as it was at the mark, and is there where it was.
fn are_marked(fields: &[Field]) -> bool
    ensures fields { OnTrue result (flat_map then_of fields.now ≡ flat_map now_of fields.now) }
    ensures each { OnTrue result (Each (λ f. f.1.marked ≡ f.1.chunks) (flat_map now_of fields.now)) }
{
    for field in fields {
        if !is_as_then(field) {
            return false;
        }
    }
    true
}

fn is_as_then(field: &Field) -> bool
    ensures then { OnTrue result (then_of field.now ≡ now_of field.now) }
    ensures chunks { OnTrue result (Each (λ f. f.1.marked ≡ f.1.chunks) (now_of field.now)) }
{
    field.is_here == field.was_there && field.index.is_marked()
}

fn mark_fields(fields: &mut Vec<Field>)
    requires { AreInOrder fields.old.items }
    ensures fields { flat_map now_of fields.new.items ≡ map (λ f. (f.0, marked_now f.1)) (flat_map now_of fields.old.items) }
    ensures marked { flat_map then_of fields.new.items ≡ flat_map now_of fields.new.items }
    ensures order { AreInOrder fields.new.items }
{
    keep_here(fields);
    mark_in(fields);
}

fn keep_here(fields: &mut Vec<Field>)
    ensures { fields.new.items ≡ filter (λ f. f.is_here) fields.old.items }
{
    fields.retain(|field| field.is_here);
}

fn mark_in(fields: &mut Vec<Field>)
    ensures { fields.new.items ≡ map marked_field fields.old.items }
{
    for at in 0..fields.len() {
        mark_one(&mut fields[at]);
    }
}

fn mark_one(field: &mut Field)
    ensures { field.new ≡ marked_field field.old }
{
    field.index.mark();
    field.was_there = field.is_here;
}

fn undo_fields(fields: &mut Vec<Field>)
    requires { AreInOrder fields.old.items }
    ensures fields { flat_map now_of fields.new.items ≡ flat_map then_of fields.old.items }
    ensures marked { flat_map then_of fields.new.items ≡ flat_map then_of fields.old.items }
    ensures order { AreInOrder fields.new.items }
{
    keep_there(fields);
    undo_in(fields);
}

fn keep_there(fields: &mut Vec<Field>)
    ensures { fields.new.items ≡ filter (λ f. f.was_there) fields.old.items }
{
    fields.retain(|field| field.was_there);
}

fn undo_in(fields: &mut Vec<Field>)
    ensures { fields.new.items ≡ map undone_field fields.old.items }
{
    for at in 0..fields.len() {
        undo_one(&mut fields[at]);
    }
}

fn undo_one(field: &mut Field)
    ensures { field.new ≡ undone_field field.old }
{
    field.index.undo();
    field.is_here = field.was_there;
}
