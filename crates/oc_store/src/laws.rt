//! What holds of the stores that files stand for. The functions do nothing.

ghost use Rattle.std.specs.Prelude.{◌≡◌, ℕ, List};
ghost use Rattle.oc_host.specs.Disk.{now, Disk, IsImage};
ghost use Rattle.oc_model.specs.Maps.{at};
ghost use Rattle.oc_model.specs.Stores.{Store};
ghost use Rattle.oc_slots.specs.declared.slot.Side.{Side};
ghost use Rattle.oc_slots.specs.Maps.{Same, SlotMap};
ghost use Rattle.oc_slots.specs.Stores.{map_on};
ghost use Rattle.oc_store.specs.Filed.{class_on, heading_on, side_of, Agrees, FiledStore, IsRead, Shows};
ghost use Rattle.oc_store.specs.Stands.{object_slot, Spells, Stands};

/// Two maps with the same slots spell one store at most, where the number of the first object is the same. So a file stands for one store at most.
pub fn laws_of_stores()
    ensures one_spelled { (first : ℕ) (m n : SlotMap) (s t : Store) → Same m n → Spells first m s → Spells first n t → s ≡ t }
    ensures one_store { (image : List ℕ) (s t : Store) → Stands image s → Stands image t → s ≡ t }
{}

/// What a store in a file shows of an object is read: no slot of a sound store is damaged.
pub fn laws_of_reading()
    ensures read { (v : FiledStore) (d : Disk) (c s : Store) → Shows v d c s → (side : Side) (n : ℕ) →
        IsRead (heading_on side v).schema (class_on side v n) (map_on side v.slots d (object_slot n)) (at (side_of side c s).records n) }
{}

/// Whatever a stop between two calls leaves stands for the store of the last commit, where the file is what the store left.
pub fn laws_of_images()
    ensures stands { (v : FiledStore) (d : Disk) (c s : Store) → Agrees v d → Shows v d c s →
        (image said : List ℕ) → IsImage (now d) image said → Stands image c }
{}
