ghost use Rattle.std.specs.Prelude.{◌≡◌, ◌==◌, ◌≤◌, ◌++◌, if◌then◌else◌, length, drop};
ghost use Rattle.std.specs.Int.{w32, to_be_bytes, from_be_bytes};
ghost use Rattle.oc_layout.specs.declared.cells.Cell.{Cell};
ghost use Rattle.oc_layout.specs.Layout.{cell_bytes, first_cell, FitsCell, SpellsCell, unit_of, room_of, first_page_of, is_wide};

/// What a slot holds: an object's record, or bytes of the container's own.
#[derive(Clone, Copy, Debug, PartialEq, Eq)]
pub enum Space {
    Objects,
    System,
}

/// A place and a length. The place counts blocks, the length bytes.
#[derive(Clone, Copy, Debug, PartialEq, Eq, Hash)]
pub struct Cell {
    pub at: u32,
    pub len: u32,
}

/// A cell, and the byte of the file where it is to stand.
#[derive(Clone, Copy, Debug, PartialEq, Eq)]
pub struct CellWrite {
    pub target: u64,
    pub cell: Cell,
}

/// The fields of a container's first 128 bytes. What one form leaves open is a field as well, so
/// that a header gives each of its bytes.
#[derive(Clone, Copy, Debug, PartialEq, Eq)]
pub struct Header {
    /// The greatest length of a file of format 1, in bytes.
    pub limit: u32,
    /// The number of the first object.
    pub first: u32,
    /// The first page, in format 1.
    pub root: Cell,
    pub log: Cell,
    /// Only 1 is open.
    pub gate: u8,
    /// The bytes in a block, in block form.
    pub block: u32,
    /// The greatest length of a file of block form, in blocks.
    pub block_limit: u32,
    /// The first page, in block form.
    pub block_root: Cell,
    /// Empty in block form.
    pub spare: Cell,
    /// Only 2 is block form; any other is format 1.
    pub form: u8,
}

impl Header {
    /// The bytes in a block: 1 in format 1.
    pub fn unit(&self) -> u32
        ensures { result ≡ unit_of self.now }
    {
        if self.form == 2 { self.block } else { 1 }
    }

    /// The greatest length of the file, in blocks.
    pub fn room(&self) -> u32
        ensures { result ≡ room_of self.now }
    {
        if self.form == 2 {
            self.block_limit
        } else {
            self.limit
        }
    }

    /// The root cell of the header's form.
    pub fn first_page(&self) -> Cell
        ensures { result ≡ first_page_of self.now }
    {
        if self.form == 2 {
            self.block_root
        } else {
            self.root
        }
    }

    /// Whether a log's targets have eight bytes: in block form.
    pub fn is_wide(&self) -> bool
        ensures { result ≡ is_wide self.now }
    {
        self.form == 2
    }
}

/// The eight bytes of a cell.
pub fn write_cell(cell: Cell) -> [u8; 8]
    ensures { result ≡ cell_bytes cell }
{
    let at = cell.at.to_be_bytes();
    let len = cell.len.to_be_bytes();
    [at[0], at[1], at[2], at[3], len[0], len[1], len[2], len[3]]
}

/// The cell that these bytes spell: any eight bytes spell one.
pub fn read_cell(bytes: &[u8; 8]) -> Cell
    ensures read { result ≡ first_cell bytes.now }
    ensures spelled { SpellsCell result bytes.now }
    ensures only { (other : Cell) → SpellsCell other bytes.now → other ≡ result }
{
    cell_from(bytes)
}

pub(crate) fn cell_from(bytes: &[u8]) -> Cell
    requires { 8 ≤ length bytes.now }
    ensures read { result ≡ first_cell bytes.now }
    ensures fits { FitsCell result }
    ensures spelled { bytes.now ≡ cell_bytes result ++ drop 8 bytes.now }
{
    Cell {
        at: number_from(bytes),
        len: number_from(&bytes[4..]),
    }
}

pub(crate) fn number_from(bytes: &[u8]) -> u32
    requires { 4 ≤ length bytes.now }
    ensures read { result ≡ from_be_bytes w32 bytes.now }
    ensures spelled { bytes.now ≡ to_be_bytes w32 result ++ drop 4 bytes.now }
{
    u32::from_be_bytes([bytes[0], bytes[1], bytes[2], bytes[3]])
}
