// A commit is planned: all its memory is taken, and everything is placed.
ghost use Rattle.std.specs.Prelude.{◌≡◌, ◌≢◌, ◌<◌, ◌≤◌, ◌+◌, ◌*◌, ◌==◌, ◌^◌, ◌++◌, if◌then◌else◌, ℕ, List, [], ◌∷◌, length, map, replicate, true, false, Some, None, All, IfOk, IfSome, OnOk, OnErr, IsErrOf};
ghost use Rattle.oc_layout.specs.Layout.{is_wide, write_len, FitsCell, IsLog};
ghost use Rattle.oc_layout.specs.declared.cells.Cell.{Cell};
ghost use Rattle.oc_room.specs.Rooms.{IsSame, IsRoom, unplaced, placed, lacking};
ghost use Rattle.oc_slots.specs.declared.fault.SpaceFault.TheVariants as SpaceFault;
ghost use Rattle.oc_slots.specs.declared.new_pages.NewPage.{NewPage};
ghost use Rattle.oc_slots.specs.declared.slot.SlotId.{SlotId};
ghost use Rattle.oc_layout.specs.declared.cells.Space.{Space};
ghost use Rattle.oc_slots.specs.Slots.{changes_of, lengths_of};
ghost use Rattle.oc_slots.specs.Stores.{AreChanges, IsWhole};
ghost use Rattle.oc_slots.specs.Planning.{AreLengths, AreSlotsPlaced, ArePlaced, IsLogPlan, IsPlan, IsRest, moves, log_length, end_over};
ghost use Rattle.oc_slots.specs.Pointings.{writes_of};
ghost use Rattle.oc_slots.specs.Turnovers.{AreNew, is_moved, root_writes};

use crate::front::with_cells;
use crate::new_pages::{Missing, NewPage, log_cells};
use crate::overlay::Overlay;
use crate::placed::PlacedChange;
use crate::preparing::{Ready, fault_of, place_changes};
use crate::run::Planned;
use crate::turnover::{Pointing, Turnover, turn_over};
use crate::{SlotChange, SpaceFault};
use oc_layout::{Cell, Header};
use oc_log::Draft;
use oc_pages::Pages;
use oc_room::Room;
use std::alloc::{AllocError, Global};

const PAGE: u64 = 1024;

const CLOSED: u8 = 0;

/// All that a commit needs: the changes that it places, and the runs of their slots; the pointers that it sets, and the places
/// that come free by it; the pages that it adds; the place of its log and the log's draft; and the header and the length of
/// the file then.
#[derive(Drop)]
pub struct CommitPlan {
    pub placed: Vec<PlacedChange>,
    pub planned: Planned,
    pub pointings: Vec<Pointing>,
    pub freed: Vec<Cell>,
    pub added: Vec<NewPage>,
    pub place: Cell,
    pub draft: Draft,
    pub header: Header,
    pub end: u64,
}

/// Plans a commit of the session with these changes as the last ones: everything that it writes is placed, and all
/// memory is taken. `None` where no pointer is to be set; then nothing is placed, and `Full` doesn't come.
///
/// After a fault the room is as before.
pub fn plan_commit(
    alloc: Global,
    header: &Header,
    pages: &mut Pages,
    room: &mut Room,
    overlay: &mut Overlay,
    fresh: u32,
    len: u64,
    last: Vec<SlotChange>,
) -> Result<Option<CommitPlan>, SpaceFault>
    requires whole { IsWhole header.now pages.old overlay.old room.old fresh len }
    requires changes { AreChanges last.items }
    ensures plan { IfOk result (λ done. IfSome done (λ plan.
        IsPlan header.now pages.old overlay.old room.old len last.items plan pages.new room.new)) }
    ensures lengths { IfOk result (λ done. IfSome done (λ _. (lens : List ℕ)
        × AreLengths (is_wide header.now) pages.old.pages (moves pages.old.pages overlay.old last.items) last.items lens
        × (lacking room.old.unit room.old.limit (unplaced room.old) lens ≡ None)
        × (room.new.end ≡ (placed room.old.unit (unplaced room.old) lens).end))) }
    ensures idle { IfOk result (λ done. done ≡ None →
        ((id : SlotId) → moves pages.old.pages overlay.old last.items id ≢ true) × (lengths_of last.items ≡ []) × IsSame room.old room.new) }
    ensures full { (need len limit : ℕ) → IsErrOf result (SpaceFault.Full need len limit) →
        (limit ≡ room.old.limit)
        × ((lens : List ℕ)
        × AreLengths (is_wide header.now) pages.old.pages (moves pages.old.pages overlay.old last.items) last.items lens
        × (lacking room.old.unit room.old.limit (unplaced room.old) lens ≡ Some (record { need = need; length = len }))) }
    ensures some_moved { (need len limit : ℕ) → IsErrOf result (SpaceFault.Full need len limit) →
        (id : SlotId) × (moves pages.old.pages overlay.old last.items id ≡ true) }
    ensures fault { OnErr result (IsSame room.old room.new) }
    ensures host { IsErrOf result SpaceFault.Host → ⊥ }
    ensures spare { fresh ≤ room.new.spare }
    ensures is_room { IsRoom room.new }
    ensures overlay { (space : Space) → changes_of overlay.new space ≡ changes_of overlay.old space }
    ensures pages { pages.new.pages ≡ pages.old.pages }
    ensures unit { pages.new.unit ≡ pages.old.unit }
    ensures cells { All (λ p. length p.cells ≡ 126) pages.old.pages }
{
    let end = room.end();
    let unit = pages.unit();
    let Ready {
        placed,
        cells,
        planned,
    } = place_changes(alloc, room, overlay, unit, fresh, len, last)?;
    let others = fresh + cells.len() as u32;
    match plan_rest(alloc, header, pages, room, overlay, placed, planned, others) {
        Ok(plan) => Ok(plan),
        Err(fault) => {
            room.take_back(&cells, end);
            Err(fault)
        }
    }
}

// Plans what comes behind the slots of the last changes. So many things can be given back without memory before and
// after.
fn plan_rest(
    alloc: Global,
    header: &Header,
    pages: &mut Pages,
    room: &mut Room,
    overlay: &Overlay,
    changes: Vec<PlacedChange>,
    planned: Planned,
    others: u32,
) -> Result<Option<CommitPlan>, SpaceFault>
    requires { AreSlotsPlaced header.now pages.old overlay.now room.old changes.items others }
    ensures plan { IfOk result (λ done. IfSome done (λ plan.
        IsRest header.now pages.old overlay.now room.old changes.items planned plan pages.new room.new)) }
    ensures lengths { IfOk result (λ done. IfSome done (λ _. (lens : List ℕ)
        × AreLengths (is_wide header.now) pages.old.pages (is_moved pages.old.pages overlay.now changes.items) [] lens
        × (lacking room.old.unit room.old.limit (unplaced room.old) lens ≡ None)
        × (room.new.end ≡ (placed room.old.unit (unplaced room.old) lens).end))) }
    ensures idle { IfOk result (λ done. done ≡ None →
        ((id : SlotId) → is_moved pages.old.pages overlay.now changes.items id ≡ false) × (room.new ≡ room.old)) }
    ensures full { (need len limit : ℕ) → IsErrOf result (SpaceFault.Full need len limit) →
        (limit ≡ room.old.limit)
        × ((lens : List ℕ)
        × AreLengths (is_wide header.now) pages.old.pages (is_moved pages.old.pages overlay.now changes.items) [] lens
        × (lacking room.old.unit room.old.limit (unplaced room.old) lens ≡ Some (record { need = need; length = len }))) }
    ensures some_moved { (need len limit : ℕ) → IsErrOf result (SpaceFault.Full need len limit) →
        (id : SlotId) × (is_moved pages.old.pages overlay.now changes.items id ≡ true) }
    ensures fault { OnErr result (IsSame room.old room.new) }
    ensures host { IsErrOf result SpaceFault.Host → ⊥ }
    ensures spare { others ≤ room.new.spare }
    ensures is_room { IsRoom room.new }
    ensures pages { pages.new.pages ≡ pages.old.pages }
    ensures unit { pages.new.unit ≡ pages.old.unit }
{
    let unit = pages.unit();
    let turnover = turn_over(alloc, pages, overlay, &changes)?;
    if turnover.pointings.is_empty() {
        return Ok(None);
    }
    let missing = Missing::of(alloc, pages, &turnover.pointings)?;
    let lengths = lengths(alloc, header, &missing, &turnover.pointings)?;
    let (cells, log) = place_log(
        alloc, header, pages, room, &missing, &turnover, &lengths, others,
    )?;
    Ok(Some(CommitPlan {
        placed: changes,
        end: end_over(unit, planned.end, &cells),
        planned,
        pointings: turnover.pointings,
        freed: turnover.freed,
        added: log.added,
        place: log.place,
        draft: log.draft,
        header: log.header,
    }))
}

// The lengths of the missing pages and of the log.
fn lengths(
    alloc: Global,
    header: &Header,
    missing: &Missing,
    pointings: &[Pointing],
) -> Result<Vec<u64>, AllocError>
    ensures { IfOk result (λ v. v.items
        ≡ replicate (length missing.now.objects.items + length missing.now.system.items) 1024
        ++ log_length (is_wide header.now) (length missing.now.objects.items + length missing.now.system.items) pointings.now ∷ []) }
{
    let added = missing.len();
    let mut lengths = vec![in alloc; PAGE; added]?;
    lengths.push(log_length(header.is_wide(), added, targets(pointings)))?;
    Ok(lengths)
}

// The bytes of a log with the root cell in it, where pages are added, and so many pointers.
fn log_length(wide: bool, added: usize, pointers: u64) -> u64
    requires { pointers < 2 ^ 58 }
    ensures { result ≡ 4 + write_len wide * ((if added == 0 then 0 else 1) + pointers) }
{
    let cells = with_root(added, pointers);
    if wide { 4 + 16 * cells } else { 4 + 12 * cells }
}

// So many pointers, and the root cell where pages are added.
fn with_root(added: usize, pointers: u64) -> u64
    requires { pointers < 2 ^ 58 }
    ensures { result ≡ (if added == 0 then 0 else 1) + pointers }
{
    if added == 0 { pointers } else { pointers + 1 }
}

// How many of the pointings have a page.
fn targets(pointings: &[Pointing]) -> u64
    ensures is { result ≡ length (writes_of pointings.now) }
    ensures few { result < 2 ^ 58 }
{
    let mut count = 0;
    for pointing in pointings {
        if pointing.target.is_some() {
            count += 1;
        }
    }
    count
}

/// The pages that are added, the place of the log and its draft, and the header then.
#[derive(Drop)]
pub struct LogPlan {
    pub added: Vec<NewPage>,
    pub place: Cell,
    pub draft: Draft,
    pub header: Header,
}

// Places the missing pages and the log, which have these lengths. There is memory then to add the pages, and to give back
// what comes free and the log.
fn place_log(
    alloc: Global,
    header: &Header,
    pages: &mut Pages,
    room: &mut Room,
    missing: &Missing,
    turnover: &Turnover,
    lengths: &[u64],
    others: u32,
) -> Result<(Vec<Cell>, LogPlan), SpaceFault>
    requires some { All (λ len. 1 ≤ len) lengths.now }
    requires count { length lengths.now ≡ length missing.now.objects.items + length missing.now.system.items + 1 }
    requires freed { length turnover.now.freed.items < 2147483648 }
    requires log { (cells : List Cell) (added : List NewPage) → map (λ c. c.len) cells ≡ lengths.now → All FitsCell cells →
        AreNew missing.now.objects.items missing.now.system.items cells added →
        IsLog (is_wide header.now) (root_writes header.now added ++ writes_of turnover.now.pointings.items) }
    requires others { others ≤ room.old.spare }
    requires few { others ≤ room.old.limit }
    ensures placed { IfOk result (λ done. ArePlaced room.old lengths.now done.0.items room.new) }
    ensures log { IfOk result (λ done.
        IsLogPlan header.now missing.now.objects.items missing.now.system.items turnover.now.pointings.items done.0.items done.1) }
    ensures freed { OnOk result (length turnover.now.freed.items + 1 ≤ room.new.spare) }
    ensures added { OnOk result (length missing.now.objects.items + length missing.now.system.items ≤ pages.new.spare) }
    ensures room { OnOk result (lacking room.old.unit room.old.limit (unplaced room.old) lengths.now ≡ None) }
    ensures full { (need len limit : ℕ) → IsErrOf result (SpaceFault.Full need len limit) →
        (limit ≡ room.old.limit)
        × (lacking room.old.unit room.old.limit (unplaced room.old) lengths.now ≡ Some (record { need = need; length = len })) }
    ensures fault { OnErr result (IsSame room.old room.new) }
    ensures host { IsErrOf result SpaceFault.Host → ⊥ }
    ensures spare { others ≤ room.new.spare }
    ensures is_room { IsRoom room.new }
    ensures pages { pages.new.pages ≡ pages.old.pages }
    ensures unit { pages.new.unit ≡ pages.old.unit }
{
    let end = room.end();
    let cells = match room.place(alloc, lengths, others) {
        Ok(cells) => cells,
        Err(fault) => return Err(fault_of(fault)),
    };
    match plan_at(alloc, header, pages, room, missing, turnover, &cells) {
        Ok(log) => Ok((cells, log)),
        Err(_) => {
            room.take_back(&cells, end);
            Err(SpaceFault::Memory)
        }
    }
}

// The pages at the first of these cells, and the log at the one behind them.
fn plan_at(
    alloc: Global,
    header: &Header,
    pages: &mut Pages,
    room: &mut Room,
    missing: &Missing,
    turnover: &Turnover,
    cells: &[Cell],
) -> Result<LogPlan, AllocError>
    requires count { length cells.now ≡ length missing.now.objects.items + length missing.now.system.items + 1 }
    requires few { length cells.now < 2147483648 }
    requires freed { length turnover.now.freed.items < 2147483648 }
    requires log { (added : List NewPage) → AreNew missing.now.objects.items missing.now.system.items cells.now added →
        IsLog (is_wide header.now) (root_writes header.now added ++ writes_of turnover.now.pointings.items) }
    ensures log { IfOk result
        (IsLogPlan header.now missing.now.objects.items missing.now.system.items turnover.now.pointings.items cells.now) }
    ensures freed { OnOk result (length turnover.now.freed.items + 1 ≤ room.new.spare) }
    ensures added { OnOk result (length cells.now ≤ pages.new.spare) }
    ensures same { IsSame room.old room.new }
    ensures spare { room.old.spare ≤ room.new.spare }
    ensures is_room { IsRoom room.new }
    ensures pages { pages.new.pages ≡ pages.old.pages }
    ensures unit { pages.new.unit ≡ pages.old.unit }
{
    room.reserve(turnover.freed.len() as u32 + 1)?;
    pages.reserve(cells.len() as u32)?;
    let added = missing.at(alloc, cells)?;
    let writes = log_cells(alloc, header, &added, &turnover.pointings)?;
    let place = cells[missing.len()];
    let with_log = Header {
        log: place,
        gate: CLOSED,
        ..*header
    };
    let after = with_cells(&with_log, &writes);
    Ok(LogPlan {
        added,
        place,
        draft: Draft::of(alloc, header, writes)?,
        header: after,
    })
}

// The length of a file of `len` bytes once something stands in each of these cells.
fn end_over(unit: u32, len: u64, cells: &[Cell]) -> u64
    ensures { result ≡ end_over unit len cells.now }
{
    let mut end = len;
    for cell in cells {
        end = end.max(cell.at as u64 * unit as u64 + cell.len as u64);
    }
    end
}
