//! What a walk goes over, and the settings of a class that bear on it.

/// A live object by its handle, or the number of a stored object that has no live one.
#[derive(Clone, Copy, PartialEq, Eq)]
pub enum Node {
    Live(u64),
    Number(u32),
}

/// What a script can set for a class.
#[derive(Clone, Copy, PartialEq, Eq)]
pub struct ClassSettings {
    /// Activation arrives at an object of the class with at least this depth.
    pub minimum: u32,
    /// And with at most this one, also where that is less.
    pub maximum: u32,
    /// The depth of a store that begins at an object of the class, where it is set.
    pub update: Option<u32>,
    /// Whether activation, a store or a delete goes on from an object of the class to what it names.
    pub cascade_activate: bool,
    pub cascade_update: bool,
    pub cascade_delete: bool,
}
