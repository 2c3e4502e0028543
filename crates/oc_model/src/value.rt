//! Kinds, values and records.

ghost use Rattle.std.specs.Prelude.{◌≡◌, IfOk};

use sqlite_items::Items;
use std::alloc::{AllocError, Global};
use std::marker::Model;

/// A text or a name, seen as its bytes.
#[derive(Drop)]
pub struct Txt {
    bytes: Vec<u8>,
}

impl Model for Txt {
    ghost use Rattle.std.specs.Prelude.{List, ℕ};

    ghost Value = { List ℕ };

    ghost view = { λ t. t.bytes.items };
}

impl Txt {
    /// The text of these bytes. It takes no memory.
    pub fn from_vec(bytes: Vec<u8>) -> Txt
        ensures { result ≡ bytes.items }
    {
        Txt { bytes }
    }

    /// A copy of these bytes.
    pub fn from_slice(alloc: Global, bytes: &[u8]) -> Result<Txt, AllocError>
        ensures { IfOk result (λ t. t ≡ bytes.now) }
    {
        Ok(Txt {
            bytes: Vec::from_slice(alloc, bytes)?,
        })
    }

    /// The bytes. It takes no memory.
    pub fn into_vec(self) -> Vec<u8>
        ensures { result.items ≡ self }
    {
        let Txt { bytes } = self;
        bytes
    }

    /// The bytes.
    pub fn as_slice(&self) -> &[u8]
        ensures { result.now ≡ self.now }
    {
        self.bytes.as_slice()
    }

    /// A text of the same bytes.
    pub fn copy(&self, alloc: Global) -> Result<Txt, AllocError>
        ensures { IfOk result (λ t. t ≡ self.now) }
    {
        Txt::from_slice(alloc, self.bytes.as_slice())
    }
}

/// What one element of a field holds.
#[derive(Clone, Copy, PartialEq, Eq)]
pub enum Base {
    Bool,
    I8,
    I16,
    I32,
    I64,
    U64,
    I128,
    Text,
    Ref,
}

/// What a field holds: one value, or an array.
#[derive(Clone, Copy, PartialEq, Eq)]
pub enum Kind {
    One(Base),
    Many(Base),
}

/// A single value. `None` is the null text, 0 the null reference.
#[derive(Drop)]
pub enum Atom {
    Bool(bool),
    Int(i128),
    Text(Option<Txt>),
    /// An object's number in a record, a handle in a live object.
    Ref(u64),
}

/// The elements of an array.
pub type Atoms = Items<Atom>;

/// The value of a field. `None` is the null array.
#[derive(Drop)]
pub enum Value {
    One(Atom),
    Many(Option<Atoms>),
}

/// A field's value in a record, under the field's id.
#[derive(Drop)]
pub struct Entry {
    pub id: u32,
    pub value: Value,
    pub kind: Kind,
}

/// The entries of a record, ascending by id.
pub type Entries = Items<Entry>;

/// A stored object: the number of its class, and its entries.
#[derive(Drop)]
pub struct Rec {
    pub class: u32,
    pub entries: Entries,
}

#[cfg(test)]
mod tests {
    use super::*;
    use std::test::Fail;

    #[test]
    fn a_text_keeps_its_bytes(rt: HostRuntime) -> Result<(), Fail> {
        for bytes in [b"".as_slice(), b"a", b"Michael\n\xc3\xa9\0"] {
            let text = Txt::from_slice(rt.alloc(), bytes)?;
            assert_eq!(rt; text.as_slice(), bytes);
            let copy = text.copy(rt.alloc())?;
            assert_eq!(rt; copy.as_slice(), bytes);
            let again = Txt::from_vec(text.into_vec());
            assert_eq!(rt; again.as_slice(), bytes);
        }
        Ok(())
    }
}
