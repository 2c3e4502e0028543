ghost use Rattle.std.specs.Prelude.{◌≡◌, ◌≤◌, ◌+◌, length, drop, IsTrue, IfSome, IfNone};
ghost use Rattle.std.specs.Int.{w32, from_be_bytes};
ghost use Rattle.oc_layout.specs.declared.cells.Header.{Header};
ghost use Rattle.oc_layout.specs.Layout.{first_cell, FitsCell};
ghost use Rattle.oc_layout.specs.Headers.{header_bytes, fields, is_in_range, is_limit, is_first, has_blocks, FitsHeader, SpellsHeader};

use crate::cells::{Cell, Header, cell_from, number_from, write_cell};

/// The header that these bytes spell, or `None` where they spell none.
pub fn read_header(bytes: &[u8; 128]) -> Option<Header>
    ensures spelled { IfSome result (λ h. SpellsHeader h bytes.now) }
    ensures only { IfSome result (λ h. (other : Header) → SpellsHeader other bytes.now → other ≡ h) }
    ensures none { IfNone result ((h : Header) → ¬ SpellsHeader h bytes.now) }
{
    let header = fields_of(bytes);
    if suits(&header) && write_header(&header).as_slice() == bytes.as_slice() {
        Some(header)
    } else {
        None
    }
}

fn fields_of(bytes: &[u8; 128]) -> Header
    ensures read { result ≡ fields bytes.now }
    ensures fits { FitsHeader result }
{
    Header {
        limit: number_at(bytes, 8),
        first: number_at(bytes, 12),
        root: cell_at(bytes, 16),
        log: cell_at(bytes, 32),
        gate: bytes[64],
        block: number_at(bytes, 40),
        block_limit: number_at(bytes, 44),
        block_root: cell_at(bytes, 48),
        spare: cell_at(bytes, 56),
        form: bytes[65],
    }
}

fn number_at(bytes: &[u8], at: usize) -> u32
    requires { at + 4 ≤ length bytes.now }
    ensures { result ≡ from_be_bytes w32 (drop at bytes.now) }
{
    number_from(&bytes[at..])
}

fn cell_at(bytes: &[u8], at: usize) -> Cell
    requires { at + 8 ≤ length bytes.now }
    ensures read { result ≡ first_cell (drop at bytes.now) }
    ensures fits { FitsCell result }
{
    cell_from(&bytes[at..])
}

fn suits(header: &Header) -> bool
    ensures { result ≡ is_in_range header.now }
{
    suits_as_limit(header.limit)
        && suits_as_first(header.first)
        && (header.form != 2 || suits_in_blocks(header))
}

fn suits_in_blocks(header: &Header) -> bool
    ensures { result ≡ has_blocks header.now }
{
    1 <= header.block
        && header.block <= 127
        && suits_as_limit(header.block_limit)
        && header.spare.at == 0
        && header.spare.len == 0
}

fn suits_as_limit(number: u32) -> bool
    ensures { result ≡ is_limit number }
{
    128 <= number && number <= 2_147_483_647
}

fn suits_as_first(number: u32) -> bool
    ensures { result ≡ is_first number }
{
    1 <= number && number <= 2_147_483_646
}

/// The 128 bytes of a header whose numbers are in range.
pub fn write_header(header: &Header) -> [u8; 128]
    requires { IsTrue (is_in_range header.now) }
    ensures { result ≡ header_bytes header.now }
{
    let limit = header.limit.to_be_bytes();
    let first = header.first.to_be_bytes();
    let root = write_cell(header.root);
    let log = write_cell(header.log);
    let block = header.block.to_be_bytes();
    let room = header.block_limit.to_be_bytes();
    let page = write_cell(header.block_root);
    let spare = write_cell(header.spare);
    let gate = header.gate;
    let form = header.form;
    [
        b'O', b'C', b'D', b'B', 1, 1, 0, 0, limit[0], limit[1], limit[2], limit[3], first[0],
        first[1], first[2], first[3], root[0], root[1], root[2], root[3], root[4], root[5],
        root[6], root[7], 0, 0, 0, 0, 0, 0, 0, 0, log[0], log[1], log[2], log[3], log[4], log[5],
        log[6], log[7], block[0], block[1], block[2], block[3], room[0], room[1], room[2], room[3],
        page[0], page[1], page[2], page[3], page[4], page[5], page[6], page[7], spare[0], spare[1],
        spare[2], spare[3], spare[4], spare[5], spare[6], spare[7], gate, form, 0, 0, 0, 0, 0, 0,
        0, 0, 0, 0, 0, 0, 0, 0, 0, 0, 0, 0, 0, 0, 0, 0, 0, 0, 0, 0, 0, 0, 0, 0, 0, 0, 0, 0, 0, 0,
        0, 0, 0, 0, 0, 0, 0, 0, 0, 0, 0, 0, 0, 0, 0, 0, 0, 0, 0, 0, 0, 0, 0, 0, 0, 0,
    ]
}
