// What holds of free parts in general. The function does nothing.
ghost use Rattle.std.specs.Prelude.{◌≡◌, ℕ, List};
ghost use Rattle.oc_model.specs.Space.{Part};
ghost use Rattle.oc_free.specs.FreeParts.{AreFree, free_at};

/// Free parts are given by their blocks: parts that stand in order, no two of which touch, are the same as others
/// with the same free blocks.
#[tactic(auto, using(crate::proofs::ByBlocks::by_blocks))]
pub fn laws_of_free_parts()
    ensures by_blocks { (xs ys : List Part) → AreFree xs → AreFree ys →
        ((k : ℕ) → free_at xs k ≡ free_at ys k) → xs ≡ ys }
{}
