//! What a command answers.

use crate::value::Txt;
use sqlite_items::Items;

/// How an object is named: by its number where it is stored, else by its handle.
#[derive(Clone, Copy, PartialEq, Eq)]
pub enum Mark {
    Number(u32),
    Handle(u64),
}

/// A single value as it is shown. `None` is null.
#[derive(Drop)]
pub enum ShownAtom {
    Bool(bool),
    Int(i128),
    Text(Option<Txt>),
    Ref(Option<Mark>),
}

pub type ShownAtoms = Items<ShownAtom>;

/// The value of a field as it is shown. `None` is the null array.
#[derive(Drop)]
pub enum ShownValue {
    One(ShownAtom),
    Many(Option<ShownAtoms>),
}

#[derive(Drop)]
pub struct ShownField {
    pub name: Txt,
    pub value: ShownValue,
}

pub type ShownFields = Items<ShownField>;

/// What is shown of an object: that it is inactive, or its fields.
#[derive(Drop)]
pub enum Shown {
    Stub,
    Fields(ShownFields),
}

/// An object as it is shown.
#[derive(Drop)]
pub struct ObjectLine {
    pub mark: Mark,
    pub class: Txt,
    pub fields: Shown,
}

pub type ObjectLines = Items<ObjectLine>;

/// A bound name and its object.
#[derive(Drop)]
pub struct NameLine {
    pub name: Txt,
    pub mark: Mark,
    /// Whether the object is active. One without a number is.
    pub active: bool,
}

pub type NameLines = Items<NameLine>;

/// Why a line was refused.
#[derive(Clone, Copy, PartialEq, Eq)]
pub enum Word {
    /// The line is no command.
    Syntax,
    /// The line has more than 65,535 bytes.
    Long,
    /// More than 64 parentheses are open at a place.
    Deep,
    /// There is no such class.
    Class,
    /// The class has no such field.
    Field,
    /// The value doesn't fit the field's kind.
    Kind,
    /// The name isn't bound.
    Name,
    /// The name is there already, or given twice.
    Exists,
    /// The stated parent isn't the class's.
    Parent,
    /// The class has no own past field of that name and kind.
    Past,
    /// There is no such object in the store.
    Live,
    /// An object that has to be active isn't.
    Stub,
    /// A cycle can be reached from the example.
    Cycle,
    /// Something is larger than its limit.
    Size,
    /// No object number is left.
    Numbers,
    /// The file has no room: what was needed, the file's length then, and its limit, in bytes.
    Full { need: u64, len: u32, limit: u32 },
}

#[derive(Drop)]
pub enum Answer {
    Done,
    /// The number of the root, and how many records were written.
    Stored { number: u32, count: u32 },
    /// How many objects left the store.
    Deleted(u32),
    /// How many objects became active.
    Activated(u32),
    /// How many objects became inactive.
    Deactivated(u32),
    /// How many stored objects were reached.
    Refreshed(u32),
    /// How many records were changed.
    Converted(u32),
    Found(ObjectLines),
    Shown(ObjectLines),
    Peeked(ObjectLines),
    Names(NameLines),
    /// Which commit of the run it was, from 1.
    Committed(u64),
    RolledBack,
    Closed,
    Refused(Word),
}
