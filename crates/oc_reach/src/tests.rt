ghost use Rattle.std.specs.Prelude.{◌≡◌, ◌≤◌, true, false, refl, slice_index, IfOk};
ghost use Rattle.std.specs.List.{All};
ghost use Rattle.std.proofs.Common.{sym, ap, ◌∙◌};
ghost use Rattle.oc_model.specs.Lists.{IsOneOf};
ghost use Rattle.oc_reach.specs.Drawn.{every_node, place, drawn_walk, drawn_lawful, both, both_walk, both_lawful};

use crate::{Node, Settings, Spread, reached};
use std::alloc::{AllocError, Global};
use std::test::Fail;

/// The node of a place: odd places are live objects.
#[tactic(auto, using(crate::specs::Drawn::number_in, crate::specs::Drawn::handle_in))]
fn node_at(place: u32) -> Node
    ensures { IsOneOf result every_node }
{
    if place % 2 == 1 {
        Node::Live(u64::from(place))
    } else {
        Node::Number(place)
    }
}

fn place_of(node: Node) -> usize
    ensures { result ≡ place node }
{
    match node {
        Node::Live(handle) => handle as usize,
        Node::Number(number) => number as usize,
    }
}

fn least_of(least: &[u32], place: usize) -> u32
    ensures { result ≡ slice_index least.now place }
{
    least.get(place).copied().unwrap_or(0)
}

fn nodes_at(alloc: Global, places: &[u32]) -> Result<Vec<Node>, AllocError>
    ensures { IfOk result (λ v. All (λ y. IsOneOf y every_node) v.items) }
{
    let mut nodes = Vec::new(alloc);
    for place in places {
        nodes.push(node_at(*place))?;
    }
    Ok(nodes)
}

/// A graph by places. A place has its least budget, and each call of `next` is noted.
#[derive(Drop)]
struct Drawn {
    alloc: Global,
    named: Vec<Vec<u32>>,
    least: Vec<u32>,
    asked: Vec<usize>,
    /// The calls that are left until one fails.
    calls: usize,
}

impl Spread for Drawn {
    type Fault = AllocError;

    ghost tells = { false };

    ghost walk = { λ s. drawn_walk s.least.items };

    ghost Goes = { λ s t _. t.least.items ≡ s.least.items };

    ghost Caused = { λ s _ t _. t.least.items ≡ s.least.items };

    fn next(&mut self, node: Node) -> Result<Vec<Node>, AllocError> {
        let place = place_of(node);
        self.asked.push(place)?;
        if self.calls == 0 {
            return Err(AllocError);
        }
        self.calls -= 1;
        match self.named.get(place) {
            Some(named) => nodes_at(self.alloc, named),
            None => Ok(Vec::new(self.alloc)),
        }
    }

    fn arrive(&self, node: Node, handed: u32) -> u32 {
        least_of(self.least.as_slice(), place_of(node))
            .max(handed)
            .min(65_535)
    }

    fn hand(&self, _node: Node, budget: u32) -> u32 {
        budget - 1
    }

    ghost lawful = { λ s. drawn_lawful s.least.items };

    ghost same = { λ s t xs h. sym (ap drawn_walk h) };

    ghost same_at_fault = { λ s t f xs h. sym (ap drawn_walk h) };

    ghost stays = { λ s. refl };

    ghost joins = { λ s t u xs ys a b. b ∙ a };

    ghost memory = { λ s f h. refl };

    ghost fails = { λ s t u f xs ys a b. b ∙ a };
}

impl Drawn {
    fn new(alloc: Global) -> Drawn {
        Drawn {
            alloc,
            named: Vec::new(alloc),
            least: Vec::new(alloc),
            asked: Vec::new(alloc),
            calls: usize::MAX,
        }
    }

    fn add(&mut self, named: &[u32], least: u32) -> Result<(), AllocError> {
        self.named.push(Vec::from_slice(self.alloc, named)?)?;
        self.least.push(least)?;
        Ok(())
    }

    /// What is reached, by places.
    fn reached(&mut self, root: u32, depth: u32) -> Result<Vec<(usize, u32)>, AllocError> {
        let mut places = Vec::new(self.alloc);
        for (node, budget) in reached(self.alloc, self, node_at(root), depth.min(65_535))? {
            places.push((place_of(node), budget))?;
        }
        Ok(places)
    }
}

/// Two numbers, each of which names both: a graph that tells its edges.
#[derive(Drop)]
struct Both {
    alloc: Global,
}

impl Spread for Both {
    type Fault = AllocError;

    ghost tells = { true };

    ghost walk = { λ s. both_walk };

    ghost Goes = { λ s t xs. s ≡ s };

    ghost Caused = { λ s f t xs. s ≡ s };

    fn next(&mut self, node: Node) -> Result<Vec<Node>, AllocError> {
        let mut nodes = Vec::new(self.alloc);
        nodes.push(Node::Number(0))?;
        nodes.push(Node::Number(1))?;
        Ok(nodes)
    }

    fn arrive(&self, node: Node, handed: u32) -> u32 {
        handed
    }

    fn hand(&self, node: Node, budget: u32) -> u32 {
        budget - 1
    }

    ghost lawful = { λ s. both_lawful };

    ghost same = { λ s t xs h. refl };

    ghost same_at_fault = { λ s t f xs h. refl };

    ghost stays = { λ s. refl };

    ghost joins = { λ s t u xs ys a b. refl };

    ghost memory = { λ s f h. refl };

    ghost fails = { λ s t u f xs ys a b. refl };
}

#[test]
fn a_graph_that_tells_is_reached(rt: HostRuntime) -> Result<(), Fail> {
    let alloc = rt.alloc();
    let mut both = Both { alloc };
    let mut budgets = Vec::new(alloc);
    for (node, budget) in reached(alloc, &mut both, Node::Number(0), 3)? {
        budgets.push((place_of(node), budget))?;
    }
    assert!(rt; budgets.as_slice() == [(0, 3), (1, 2)].as_slice());
    Ok(())
}

/// What the walk is by its definition: rounds in which each place hands on what it has, until nothing rises.
fn by_rounds(drawn: &Drawn, root: usize, depth: u32) -> Result<Vec<u32>, AllocError> {
    let mut budgets = Vec::new(drawn.alloc);
    for _ in &drawn.named {
        budgets.push(0)?;
    }
    let first = least_of(drawn.least.as_slice(), root)
        .max(depth)
        .min(65_535);
    if let Some(budget) = budgets.get_mut(root) {
        *budget = first;
    }
    for _ in 0..u64::MAX {
        if !round(drawn, &mut budgets) {
            break;
        }
    }
    Ok(budgets)
}

/// One round; whether a budget rose.
fn round(drawn: &Drawn, budgets: &mut Vec<u32>) -> bool {
    let mut rose = false;
    for place in 0..drawn.named.len() {
        let had = least_of(budgets.as_slice(), place);
        if had == 0 {
            continue;
        }
        for to in &drawn.named[place] {
            let least = least_of(drawn.least.as_slice(), *to as usize);
            let arrives = least.max(had - 1).min(65_535);
            if let Some(budget) = budgets.get_mut(*to as usize) {
                if *budget < arrives {
                    *budget = arrives;
                    rose = true;
                }
            }
        }
    }
    rose
}

/// Live objects come before numbers, and here these are the odd places.
fn is_before(one: usize, two: usize) -> bool {
    (one % 2 == 0, one) < (two % 2 == 0, two)
}

/// Whether these are the places with a budget, in their order, and each was asked for once.
fn is_right(drawn: &Drawn, places: &[(usize, u32)], budgets: &[u32]) -> bool {
    let count = budgets.iter().filter(|budget| **budget > 0).count();
    let in_order = places
        .windows(2)
        .all(|pair| is_before(pair[0].0, pair[1].0));
    let alike = places
        .iter()
        .all(|place| budgets.get(place.0).copied() == Some(place.1));
    let asked = drawn.asked.as_slice();
    let once = places.iter().all(|place| asked.iter().filter(|one| **one == place.0).count() == 1);
    in_order && alike && once && places.len() == count && asked.len() == count
}

/// Numbers that look like chance.
#[derive(Drop)]
struct Dice {
    state: u32,
}

impl Dice {
    fn roll(&mut self) -> u32 {
        self.state ^= self.state << 13;
        self.state ^= self.state >> 17;
        self.state ^= self.state << 5;
        self.state
    }
}

fn drawn_by(alloc: Global, dice: &mut Dice) -> Result<Drawn, AllocError> {
    let mut drawn = Drawn::new(alloc);
    let count = 1 + dice.roll() % 30;
    for _ in 0..count {
        let mut named = Vec::new(alloc);
        for _ in 0..dice.roll() % 5 {
            named.push(dice.roll() % count)?;
        }
        let least = if dice.roll() % 8 == 0 {
            dice.roll() % 6
        } else {
            0
        };
        drawn.add(named.as_slice(), least)?;
    }
    Ok(drawn)
}

#[test]
fn two_thousand_graphs_are_reached_as_by_rounds(rt: HostRuntime) -> Result<(), Fail> {
    let alloc = rt.alloc();
    let mut dice = Dice { state: 11 };
    let mut most = 0;
    for _ in 0..2_000 {
        let mut drawn = drawn_by(alloc, &mut dice)?;
        let depth = dice.roll() % 9;
        let places = drawn.reached(0, depth)?;
        let budgets = by_rounds(&drawn, 0, depth)?;
        assert!(rt; is_right(&drawn, places.as_slice(), budgets.as_slice()));
        most = places.len().max(most);
    }
    assert!(rt; most > 20);
    Ok(())
}

/// The edges from each place, the least budgets of the places, the root, the depth, and what is reached.
type Row = (
    &'static [&'static [u32]],
    &'static [u32],
    u32,
    u32,
    &'static [(usize, u32)],
);

const DIAMOND: &[&[u32]] = &[&[], &[2, 4], &[3], &[4], &[5], &[6], &[]];

const TWO: &[&[u32]] = &[&[1], &[0]];

const ROWS: &[Row] = &[
    (
        DIAMOND,
        &[],
        1,
        4,
        &[(1, 4), (3, 2), (5, 2), (2, 3), (4, 3), (6, 1)],
    ),
    (DIAMOND, &[], 1, 0, &[]),
    (DIAMOND, &[], 1, 1, &[(1, 1)]),
    (DIAMOND, &[], 6, 65_535, &[(6, 65_535)]),
    (
        DIAMOND,
        &[0, 0, 0, 0, 0, 2],
        1,
        3,
        &[(1, 3), (3, 1), (5, 2), (2, 2), (4, 2), (6, 1)],
    ),
    (TWO, &[], 0, 3, &[(1, 2), (0, 3)]),
    (TWO, &[], 0, 65_535, &[(1, 65_534), (0, 65_535)]),
    (TWO, &[0, 9], 0, 1, &[(1, 9), (0, 8)]),
    (TWO, &[0, 9], 0, 0, &[]),
    (&[&[0, 0]], &[], 0, 2, &[(0, 2)]),
];

#[test]
fn rows_are_reached(rt: HostRuntime) -> Result<(), Fail> {
    let alloc = rt.alloc();
    for (edges, least, root, depth, want) in ROWS {
        let mut drawn = Drawn::new(alloc);
        for (place, named) in edges.iter().enumerate() {
            drawn.add(named, least_of(least, place))?;
        }
        let places = drawn.reached(*root, *depth)?;
        assert!(rt; places.as_slice() == *want);
        assert!(rt; drawn.asked.len() == want.len());
    }
    Ok(())
}

#[test]
fn a_fault_comes_through(rt: HostRuntime) -> Result<(), Fail> {
    let alloc = rt.alloc();
    for calls in 0..6 {
        let mut drawn = Drawn::new(alloc);
        for named in DIAMOND {
            drawn.add(named, 0)?;
        }
        drawn.calls = calls;
        assert!(rt; drawn.reached(1, 4).is_err());
        assert!(rt; drawn.asked.len() == calls + 1);
    }
    Ok(())
}

#[test]
fn settings_are_kept_by_class(rt: HostRuntime) -> Result<(), Fail> {
    let mut settings = Settings::new(rt.alloc());
    assert!(rt; settings.activation == 5);
    assert!(rt; settings.update == 1);
    let start = settings.of(7);
    assert!(rt; start.minimum == 0);
    assert!(rt; start.maximum == 65_535);
    assert!(rt; start.update.is_none());
    assert!(rt; !start.cascade_activate);
    assert!(rt; !start.cascade_update);
    assert!(rt; !start.cascade_delete);
    let mut other = start;
    other.minimum = 3;
    for class in [9, 2, 7] {
        settings.set(class, other)?;
    }
    other.minimum = 4;
    settings.set(7, other)?;
    settings.activation = 6;
    settings.drop_above(7);
    assert!(rt; settings.of(2).minimum == 3);
    assert!(rt; settings.of(7).minimum == 4);
    assert!(rt; settings.of(9).minimum == 0);
    assert!(rt; settings.activation == 6);
    Ok(())
}
