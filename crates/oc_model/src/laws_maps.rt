//! Laws of maps.

ghost use Rattle.std.specs.Prelude.{ℕ, ◌≡◌, ◌≢◌, IsTrue, Some};
ghost use Rattle.std.specs.FinMap.{is_sorted};
ghost use Rattle.std.specs.Ordering.{nat_cmp};
ghost use Rattle.oc_model.specs.declared.value.Rec.{Rec};
ghost use Rattle.oc_model.specs.Maps.{Map, at, with_at};

/// A map of records is known by what it has: with this record at the number, and elsewhere what the old map has, it is the old map with the record at the number.
pub fn records_are_by_number()
    ensures { (old new : Map Rec) (n : ℕ) (r : Rec)
        → IsTrue (is_sorted nat_cmp old) → IsTrue (is_sorted nat_cmp new)
        → at new n ≡ Some r → ((m : ℕ) → m ≢ n → at new m ≡ at old m) → new ≡ with_at old n r }
{}
