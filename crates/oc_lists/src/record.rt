//! What becomes of an object.

use oc_marshal::Rec;

/// The object of this number has this record from now on, or is gone.
#[derive(Drop)]
pub struct RecChange {
    pub number: u32,
    pub rec: Option<Rec>,
}
