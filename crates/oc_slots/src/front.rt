// The front of a file is judged: its header, and the writes of an open log.
ghost use Rattle.std.specs.Prelude.{◌≡◌, ◌≢◌, ◌<◌, ◌≤◌, ◌+◌, ℕ, true, false, List, [], length, take, IsTrue, IfOk, OnOk, IfSome, IfNone, IsErrOf, All, Any};
ghost use Rattle.oc_host.specs.Counts.{Rose};
ghost use Rattle.oc_host.specs.Disk.{Looks};
ghost use Rattle.oc_layout.specs.declared.cells.CellWrite.{CellWrite};
ghost use Rattle.oc_layout.specs.declared.cells.Header.{Header};
ghost use Rattle.oc_layout.specs.Headers.{is_in_range};
ghost use Rattle.oc_layout.specs.Layout.{unit_of, room_of, is_wide, is_ascending, blocks, FitsWrite};
ghost use Rattle.oc_slots.specs.declared.attach_fault.AttachFault.TheVariants as attach_fault;
ghost use Rattle.oc_slots.specs.Attaching.{HasOpenLog, ReadsLog, SuitsTarget, HasFront, with_cell, with_cells, open_len};
ghost use Rattle.oc_slots.specs.Forms.{Begins, LiesIn, log_things, root_place};

use crate::AttachFault;
use oc_host::Host;
use oc_layout::{CellWrite, Header, read_header, read_log};
use std::alloc::Global;

/// The bytes of a header.
pub const HEADER: u32 = 128;

/// The gate of a log that is to be put in.
pub const OPEN: u8 = 1;

const CELL: u64 = 8;

/// The front of a file: its header, and the writes of an open log.
#[derive(Drop)]
pub struct Front {
    pub header: Header,
    pub writes: Vec<CellWrite>,
}

/// Reads the front of a file of so many bytes.
pub fn read_front<H: Host>(alloc: Global, host: &mut H, len: u64) -> Result<Front, AttachFault>
    requires { IsTrue H.tells → len ≡ length (H.disk host.old).bytes }
    ensures ok { IfOk result (λ front. IsTrue H.tells → HasFront front.header front.writes.items (H.disk host.old).bytes) }
    ensures in_range { IfOk result (λ front. is_in_range front.header ≡ true) }
    ensures room { IfOk result (λ front. blocks (unit_of front.header) len ≤ room_of front.header) }
    ensures long { OnOk result (128 ≤ len) }
    ensures lies { IfOk result (λ front. All (LiesIn (unit_of front.header) len) (log_things front.header front.writes.items)) }
    ensures suit { IfOk result (λ front. All (SuitsTarget front.header len) front.writes.items) }
    ensures fits { IfOk result (λ front. All (FitsWrite (is_wide front.header)) front.writes.items) }
    ensures ascends { IfOk result (λ front. IsTrue (is_ascending front.writes.items)) }
    ensures closed { IfOk result (λ front. front.header.gate ≢ 1 → front.writes.items ≡ []) }
    ensures some { IfOk result (λ front. front.header.gate ≡ 1 → 0 < length front.writes.items) }
    ensures not_container { IsErrOf result attach_fault.NotAContainer → IsTrue H.tells →
        (h : Header) (ws : List CellWrite) → HasFront h ws (H.disk host.old).bytes → ⊥ }
    ensures looks { IsTrue H.tells → Looks (H.disk host.old) (H.disk host.new) }
    ensures later { H.faults host.old ≤ H.faults host.new }
    ensures cause { IsErrOf result attach_fault.Host → Rose (H.faults host.old) (H.faults host.new) }
    ensures taken { IsTrue H.tells → (h : Header) (ws : List CellWrite) → HasFront h ws (H.disk host.old).bytes →
        H.taken host.new ≤ H.taken host.old + 128 + open_len h }
    ensures short { len ≤ 128 → H.taken host.new ≤ H.taken host.old + 128 }
{
    let header = read_start(host, len)?;
    let writes = read_open_log(alloc, host, &header, len)?;
    if !suit(&header, &writes, len) {
        return Err(AttachFault::NotAContainer);
    }
    Ok(Front { header, writes })
}

// Reads the header.
fn read_start<H: Host>(host: &mut H, len: u64) -> Result<Header, AttachFault>
    requires { IsTrue H.tells → len ≡ length (H.disk host.old).bytes }
    ensures begins { IfOk result (λ header. IsTrue H.tells → Begins header (H.disk host.old).bytes) }
    ensures in_range { IfOk result (λ header. is_in_range header ≡ true) }
    ensures room { IfOk result (λ header. blocks (unit_of header) len ≤ room_of header) }
    ensures long { OnOk result (128 ≤ len) }
    ensures not_container { IsErrOf result attach_fault.NotAContainer → IsTrue H.tells →
        (h : Header) → Begins h (H.disk host.old).bytes → blocks (unit_of h) len ≤ room_of h → ⊥ }
    ensures memory { IsErrOf result attach_fault.Memory → ⊥ }
    ensures looks { IsTrue H.tells → Looks (H.disk host.old) (H.disk host.new) }
    ensures later { H.faults host.old ≤ H.faults host.new }
    ensures cause { IsErrOf result attach_fault.Host → Rose (H.faults host.old) (H.faults host.new) }
    ensures taken { H.taken host.new ≤ H.taken host.old + 128 }
{
    if len < HEADER as u64 {
        return Err(AttachFault::NotAContainer);
    }
    let mut bytes = [0; 128];
    host.read(0, &mut bytes)?;
    match header_of(&bytes, len) {
        Some(header) => Ok(header),
        None => Err(AttachFault::NotAContainer),
    }
}

// The header that these bytes spell, if a file of so many bytes has room by it.
fn header_of(bytes: &[u8; 128], len: u64) -> Option<Header>
    ensures begins { IfSome result (λ header. (b : List ℕ) → bytes.now ≡ take 128 b → Begins header b) }
    ensures in_range { IfSome result (λ header. is_in_range header ≡ true) }
    ensures room { IfSome result (λ header. blocks (unit_of header) len ≤ room_of header) }
    ensures none { IfNone result ((b : List ℕ) → bytes.now ≡ take 128 b →
        (h : Header) → Begins h b → blocks (unit_of h) len ≤ room_of h → ⊥) }
{
    let Some(header) = read_header(bytes) else {
        return None;
    };
    if has_room(&header, len) {
        Some(header)
    } else {
        None
    }
}

fn has_room(header: &Header, len: u64) -> bool
    requires { is_in_range header.now ≡ true }
    ensures yes { IsTrue result → blocks (unit_of header.now) len ≤ room_of header.now }
    ensures no { result ≡ false → blocks (unit_of header.now) len ≤ room_of header.now → ⊥ }
{
    len.div_ceil(header.unit() as u64) <= header.room() as u64
}

// Reads the writes of the log, where the gate is open.
fn read_open_log<H: Host>(
    alloc: Global,
    host: &mut H,
    header: &Header,
    len: u64,
) -> Result<Vec<CellWrite>, AttachFault>
    requires in_range { is_in_range header.now ≡ true }
    requires len { IsTrue H.tells → len ≡ length (H.disk host.old).bytes }
    ensures lies { IfOk result (λ writes. All (LiesIn (unit_of header.now) len) (log_things header.now writes.items)) }
    ensures ok { IfOk result (λ writes. IsTrue H.tells → ReadsLog header.now (H.disk host.old).bytes writes.items) }
    ensures fits { IfOk result (λ writes. All (FitsWrite (is_wide header.now)) writes.items) }
    ensures ascends { IfOk result (λ writes. IsTrue (is_ascending writes.items)) }
    ensures closed { IfOk result (λ writes. header.now.gate ≢ 1 → writes.items ≡ []) }
    ensures some { IfOk result (λ writes. header.now.gate ≡ 1 → 0 < length writes.items) }
    ensures not_container { IsErrOf result attach_fault.NotAContainer → IsTrue H.tells →
        (ws : List CellWrite) → ReadsLog header.now (H.disk host.old).bytes ws → ⊥ }
    ensures looks { IsTrue H.tells → Looks (H.disk host.old) (H.disk host.new) }
    ensures later { H.faults host.old ≤ H.faults host.new }
    ensures cause { IsErrOf result attach_fault.Host → Rose (H.faults host.old) (H.faults host.new) }
    ensures taken { H.taken host.new ≤ H.taken host.old + open_len header.now }
    ensures short { len ≤ 128 → H.taken host.new ≤ H.taken host.old }
{
    if header.gate != OPEN {
        return Ok(Vec::new(alloc));
    }
    read_log_in(alloc, host, header, len)
}

// Reads the log of an open gate.
fn read_log_in<H: Host>(
    alloc: Global,
    host: &mut H,
    header: &Header,
    len: u64,
) -> Result<Vec<CellWrite>, AttachFault>
    requires gate { header.now.gate ≡ 1 }
    requires in_range { is_in_range header.now ≡ true }
    requires len { IsTrue H.tells → len ≡ length (H.disk host.old).bytes }
    ensures some { IfOk result (λ writes. 0 < length writes.items) }
    ensures lies { OnOk result (LiesIn (unit_of header.now) len header.now.log) }
    ensures ok { IfOk result (λ writes. IsTrue H.tells → HasOpenLog header.now (H.disk host.old).bytes writes.items) }
    ensures fits { IfOk result (λ writes. All (FitsWrite (is_wide header.now)) writes.items) }
    ensures ascends { IfOk result (λ writes. IsTrue (is_ascending writes.items)) }
    ensures not_container { IsErrOf result attach_fault.NotAContainer → IsTrue H.tells →
        (ws : List CellWrite) → HasOpenLog header.now (H.disk host.old).bytes ws → ⊥ }
    ensures looks { IsTrue H.tells → Looks (H.disk host.old) (H.disk host.new) }
    ensures later { H.faults host.old ≤ H.faults host.new }
    ensures cause { IsErrOf result attach_fault.Host → Rose (H.faults host.old) (H.faults host.new) }
    ensures taken { H.taken host.new ≤ H.taken host.old + header.now.log.len }
    ensures short { len ≤ 128 → H.taken host.new ≤ H.taken host.old }
{
    let at = header.log.at as u64 * header.unit() as u64;
    if at < HEADER as u64 || at + header.log.len as u64 > len {
        return Err(AttachFault::NotAContainer);
    }
    let mut bytes = vec![in alloc; 0; header.log.len as usize]?;
    host.read(at, &mut bytes)?;
    match read_log(alloc, &bytes, header.is_wide())? {
        Some(writes) => Ok(writes),
        None => Err(AttachFault::NotAContainer),
    }
}

// Whether each write is put at the root cell, or behind the header and within the file.
fn suit(header: &Header, writes: &[CellWrite], len: u64) -> bool
    ensures yes { IsTrue result → All (SuitsTarget header.now len) writes.now }
    ensures no { result ≡ false → Any (λ w. ¬ SuitsTarget header.now len w) writes.now }
{
    let root = root_place(header);
    for write in writes {
        if write.target != root && !lies_behind(write.target, len) {
            return false;
        }
    }
    true
}

// Whether a cell at this byte lies behind the header and within the file.
fn lies_behind(target: u64, len: u64) -> bool
    ensures yes { IsTrue result → (128 ≤ target) × (target + 8 ≤ len) }
    ensures no { result ≡ false → 128 ≤ target → target + 8 ≤ len → ⊥ }
{
    target >= HEADER as u64 && target <= len && len - target >= CELL
}

/// The first byte of the root cell.
pub fn root_place(header: &Header) -> u64
    ensures { result ≡ root_place header.now }
{
    if header.form == 2 { 48 } else { 16 }
}

/// The header with these writes put in.
pub fn with_cells(header: &Header, writes: &[CellWrite]) -> Header
    ensures { result ≡ with_cells header.now writes.now }
{
    let mut put = *header;
    for write in writes {
        put = with_cell(put, *write);
    }
    put
}

fn with_cell(mut header: Header, write: CellWrite) -> Header
    ensures { result ≡ with_cell header write }
{
    if write.target == root_place(&header) {
        if header.form == 2 {
            header.block_root = write.cell;
        } else {
            header.root = write.cell;
        }
    }
    header
}
