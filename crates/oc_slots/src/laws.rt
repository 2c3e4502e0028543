// What holds of files of the form. The functions do nothing.
ghost use Rattle.std.specs.Prelude.{◌≡◌, ◌≢◌, ◌⊎◌, ◌<◌, ◌≤◌, ◌+◌, ◌*◌, ℕ, List, [], ◌∷◌, ◌++◌, length, slice_index_or, All, AllPairs, sum_by};
ghost use Rattle.oc_host.specs.Disk.{Disk, IsDisk, IsSynced, IsImage, now, writing, wrote};
ghost use Rattle.oc_layout.specs.declared.cells.Header.{Header};
ghost use Rattle.oc_layout.specs.declared.cells.Cell.{Cell};
ghost use Rattle.oc_layout.specs.declared.cells.CellWrite.{CellWrite};
ghost use Rattle.oc_log.specs.Log.{with_log, put_cells};
ghost use Rattle.oc_log.specs.Stops.{NoneOrAll};
ghost use Rattle.oc_slots.specs.Commits.{IsCommit};
ghost use Rattle.oc_pages.specs.declared.page.Page.{Page};
ghost use Rattle.oc_free.specs.FreeParts.{free_at};
ghost use Rattle.oc_room.specs.Rooms.{Space, Tiles, owners, open_at};
ghost use Rattle.oc_pages.specs.Pages.{no_cell, pointer_of, IsOther};
ghost use Rattle.oc_slots.specs.declared.slot.SlotId.{SlotId};
ghost use Rattle.oc_pages.specs.Chains.{Chain, AreApart};
ghost use Rattle.oc_slots.specs.declared.turnover.Pointing.{Pointing};
ghost use Rattle.oc_slots.specs.Pointings.{set_all, writes_of, pointed_place, cells_in, replaced, AreAt, AreDistinct, AreHeld};
ghost use Rattle.oc_slots.specs.Maps.{SlotMap, Same};
ghost use Rattle.oc_slots.specs.Forms.{HasForm, Gives, GivesFrom, header_cell};
ghost use Rattle.oc_slots.specs.Held.{IsBeside, Holds, map_of};
ghost use Rattle.oc_layout.specs.Layout.{unit_of, room_of, blocks, FitsCell};
ghost use Rattle.oc_pages.specs.Pages.{things_of};

/// A file gives one map at most.
pub fn laws_of_forms()
    ensures one_map { (image : List ℕ) (m n : SlotMap) → Gives image m → Gives image n → Same m n }
{}

/// Where a file holds its committed side, each file that a stop leaves gives that side's map, and its header has the
/// same first number. A write beside the header, the pages and the committed slots leaves it so, at each moment. While a
/// commit's cells are put in by its log, each file that a stop leaves gives the old map or the new one, with the same
/// first number. A synced file of the form whose gate is closed holds its committed side.
pub fn laws_of_stops()
    ensures held { (header : Header) (pages : List Page) (disk : Disk) → Holds header pages disk →
        (image said : List ℕ) → IsImage (now disk) image said → GivesFrom header.first image (map_of header pages disk.bytes) }
    ensures beside { (header : Header) (pages : List Page) (disk : Disk) → Holds header pages disk →
        (at : ℕ) (bytes : List ℕ) → at ≤ length disk.bytes →
        blocks (unit_of header) (at + length bytes) ≤ room_of header →
        All (IsBeside (unit_of header) at (length bytes)) (header_cell ∷ things_of pages) → IsDisk (wrote at bytes disk) →
        Holds header pages (wrote at bytes disk)
        × Same (map_of header pages (wrote at bytes disk).bytes) (map_of header pages disk.bytes)
        × ((image said : List ℕ) → IsImage (writing at (length bytes) disk) image said → GivesFrom header.first image (map_of header pages disk.bytes)) }
    ensures commit { (header : Header) (old new : List Page) (disk : Disk) → Holds header old disk →
        (place : Cell) (cells : List CellWrite) → IsCommit header old new place cells disk →
        (image said : List ℕ) → NoneOrAll (with_log header place) cells disk image said →
        (said ≡ disk.said)
        × (GivesFrom header.first image (map_of header old disk.bytes) ⊎ GivesFrom header.first image (map_of header new (put_cells cells disk.bytes))) }
    ensures formed { (header : Header) (pages : List Page) (disk : Disk) → HasForm header [] pages disk.bytes →
        IsSynced disk → IsDisk disk → header.gate ≢ 1 → Holds header pages disk }
{}

/// Things that are placed by a room tile the file with those that were there, and each of these is beside each of
/// them.
pub fn laws_of_placing()
    ensures placed { (old new : Space) (things cells : List Cell) → Tiles old things → new.unit ≡ old.unit → old.end ≤ new.end →
        ((k : ℕ) → open_at old k ≡ open_at new k + owners old.unit cells k) → ((k : ℕ) → new.end ≤ k → free_at new.parts k ≡ 0) →
        Tiles new (things ++ cells)
        × (0 < old.unit → All (λ c. 1 ≤ c.len) things → All (λ c. 1 ≤ c.len) cells → (i : ℕ) → i < length cells →
        All (IsBeside old.unit ((slice_index_or cells i no_cell).at * old.unit) (slice_index_or cells i no_cell).len) things) }
{}

/// Cells that are put into a file where those of their numbers stand make of its chain of pages the one with them. Each
/// number has the pointer that was set, and the others theirs; the places that the pages name are those of before without
/// the ones that were replaced, and with the new ones.
pub fn laws_of_pointings()
    ensures chain { (unit : ℕ) (image : List ℕ) (root : Cell) (pages : List Page) (pointings : List Pointing) →
        Chain unit image root pages → AllPairs IsOther pages → AllPairs (AreApart unit) pages →
        AreAt unit pages pointings → All (λ p. FitsCell p.cell) pointings →
        Chain unit (put_cells (writes_of pointings) image) root (set_all pointings pages) }
    ensures pointers { (pointings : List Pointing) (pages : List Page) (id : SlotId) → All (λ p. length p.cells ≡ 126) pages →
        AreHeld pages pointings → AreDistinct pointings →
        pointer_of (set_all pointings pages) id.space id.number ≡ pointed_place pointings id (pointer_of pages id.space id.number) }
    ensures things { (f : Cell → ℕ) (pointings : List Pointing) (pages : List Page) → All (λ p. length p.cells ≡ 126) pages →
        AllPairs IsOther pages → AreHeld pages pointings → AreDistinct pointings →
        sum_by f (things_of (set_all pointings pages)) + sum_by f (replaced pages pointings)
        ≡ sum_by f (things_of pages) + sum_by f (cells_in pointings) }
{}
