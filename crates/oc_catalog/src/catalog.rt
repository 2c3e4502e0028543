//! What a catalog says.

use oc_schema::Schema;
use sqlite_items::Items;

/// The numbers of segments, in the order of their list.
pub type Numbers = Items<u32>;

/// A list of objects, and the segments in which it stands.
#[derive(Drop)]
pub struct ListEntry {
    /// 0 for the list of all objects, else the id of the indexed field.
    pub id: u32,
    pub segments: Numbers,
}

/// The lists of a store, by id.
pub type Lists = Items<ListEntry>;

/// What a store says of itself: the number that the next object gets, the schema, and where the lists stand.
#[derive(Drop)]
pub struct Catalog {
    pub next: u32,
    pub schema: Schema,
    pub lists: Lists,
}
