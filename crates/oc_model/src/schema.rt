//! Classes and fields.

use crate::value::{Kind, Txt};
use sqlite_items::Items;

/// A field of a class. A past field is kept for the records that have an entry under its id.
#[derive(Drop)]
pub struct FieldDef {
    pub id: u32,
    pub name: Txt,
    pub kind: Kind,
    pub current: bool,
    pub indexed: bool,
}

/// The own fields of a class: the current ones in the order of their declaration, then the past ones.
pub type Fields = Items<FieldDef>;

/// A class. Its number is its place in the schema, from 1.
#[derive(Drop)]
pub struct ClassDef {
    pub name: Txt,
    /// The number of the parent, 0 for none.
    pub parent: u32,
    pub fields: Fields,
}
