// What holds of rooms in general. The function does nothing.
ghost use Rattle.std.specs.Prelude.{◌≡◌, ◌≤◌, ℕ, List, length, All, map};
ghost use Rattle.oc_layout.specs.declared.cells.Cell.{Cell};
ghost use Rattle.oc_layout.specs.Layout.{blocks};
ghost use Rattle.oc_model.specs.Space.{shortage};
ghost use Rattle.oc_room.specs.Rooms.{Space, unplaced, lacking, IsSame, GoesBack};

/// Where a cell can name each of the lengths, the first that finds no room is the shortage of their blocks. What
/// goes back into a room goes back into one that is the same and has the memory for it.
pub fn laws_of_rooms()
    ensures shortage { (unit limit : ℕ) (room : Space) (lens : List ℕ) → All (λ len. len ≤ 4294967295) lens →
        lacking unit limit (unplaced room) lens ≡ shortage room.parts room.end limit (map (blocks unit) lens) }
    ensures back { (s t : Space) (things : List Cell) (to : ℕ) → IsSame s t → length things ≤ t.spare →
        GoesBack s things to → GoesBack t things to }
{}
