// So many blocks from an address on.
ghost use Rattle.std.specs.Prelude.{◌≡◌, ◌≤◌, AllPairs};
ghost use Rattle.oc_model.specs.Space.{is_better};
ghost use Rattle.oc_free.specs.FreeParts.{end_of, LiesBefore};
ghost use Rattle.oc_free.specs.Orders.{RanksBefore, IsPlaceOf, IsRankOf, IsFirstFit};

use std::marker::Model;

#[derive(Clone, Copy, Debug)]
pub struct Part {
    pub address: u32,
    pub blocks: u32,
}

impl Model for Part {
    ghost use Rattle.oc_model.specs.Space.{Part as Blocks};

    ghost Value = { Blocks };

    ghost view = { λ p. record { address = p.address; blocks = p.blocks } };

    ghost inverse = { λ v. record { address = v.address; blocks = v.blocks } };
}

impl Part {
    pub fn new(address: u32, blocks: u32) -> Part
        ensures { result ≡ record { address = address; blocks = blocks } }
    {
        Part { address, blocks }
    }

    pub fn address(&self) -> u32
        ensures { result ≡ self.now.address }
    {
        self.address
    }

    pub fn blocks(&self) -> u32
        ensures { result ≡ self.now.blocks }
    {
        self.blocks
    }

    // The first block behind the part.
    pub fn end(&self) -> u32
        requires { end_of self.now ≤ 2147483647 }
        ensures { result ≡ end_of self.now }
    {
        self.address + self.blocks
    }

    // Whether this is the smaller part, or as large and before the other.
    pub fn ranks_before(&self, other: &Part) -> bool
        ensures { result ≡ is_better self.now other.now }
    {
        self.blocks < other.blocks || (self.blocks == other.blocks && self.address < other.address)
    }
}

// Where the part of this address is, or would go, in the order of addresses.
pub fn place_of(parts: &[Part], address: u32) -> usize
    requires { AllPairs LiesBefore parts.now }
    ensures { IsPlaceOf address parts.now result }
{
    parts.partition_point(|part| part.address() < address)
}

// Where the part is, or would go, in the order of sizes.
pub fn rank_of(parts: &[Part], part: Part) -> usize
    requires { AllPairs RanksBefore parts.now }
    ensures { IsRankOf part parts.now result }
{
    parts.partition_point(|other| other.ranks_before(&part))
}

// Where the parts of at least this size begin, in the order of sizes.
pub fn first_fit(parts: &[Part], need: u32) -> usize
    requires { AllPairs RanksBefore parts.now }
    ensures { IsFirstFit need parts.now result }
{
    parts.partition_point(|part| part.blocks() < need)
}
