ghost use Rattle.std.specs.Prelude.{◌≡◌, Some, false, refl, slice_index, IfOk};
ghost use Rattle.std.specs.List.{All};
ghost use Rattle.std.proofs.Common.{◌∙◌};
ghost use Rattle.oc_model.specs.Lists.{IsOneOf};
ghost use Rattle.oc_reach.specs.Drawn.{every_node, place};
ghost use Rattle.oc_update.specs.Drawn.{drawn_graph, drawn_closed, same_drawn};

use crate::{plan_delete, plan_store};
use oc_reach::{ClassSettings, Graph, Node, Settings};
use std::alloc::{AllocError, Global};
use std::test::Fail;

/// The node of a place: odd places are live objects.
fn node_at(place: u32) -> Node
    ensures { IsOneOf result every_node }
{
    if place % 2 == 1 {
        Node::Live(u64::from(place))
    } else {
        Node::Number(place)
    }
}

fn place_of(node: Node) -> usize
    ensures { result ≡ place node }
{
    match node {
        Node::Live(handle) => handle as usize,
        Node::Number(number) => number as usize,
    }
}

fn number_at(numbers: &[u32], place: usize) -> u32
    ensures { result ≡ slice_index numbers.now place }
{
    numbers.get(place).copied().unwrap_or(0)
}

fn nodes_at(alloc: Global, places: &[u32]) -> Result<Vec<Node>, AllocError>
    ensures { IfOk result (λ v. All (λ y. IsOneOf y every_node) v.items) }
{
    let mut nodes = Vec::new(alloc);
    for place in places {
        nodes.push(node_at(*place))?;
    }
    Ok(nodes)
}

/// A graph by places. Each place has a class, and 1 where it is unsaved. Each call of `next` is noted.
#[derive(Drop)]
struct Drawn {
    alloc: Global,
    named: Vec<Vec<u32>>,
    classes: Vec<u32>,
    fresh: Vec<u32>,
    asked: Vec<usize>,
}

impl Graph for Drawn {
    type Fault = AllocError;

    ghost tells = { false };

    ghost shown = { λ s. drawn_graph s.classes.items s.fresh.items };

    ghost Goes = { λ s t _. (t.classes.items ≡ s.classes.items) × (t.fresh.items ≡ s.fresh.items) };

    ghost Caused = { λ s _ t _. (t.classes.items ≡ s.classes.items) × (t.fresh.items ≡ s.fresh.items) };

    fn next(&mut self, node: Node) -> Result<Vec<Node>, AllocError> {
        let place = place_of(node);
        self.asked.push(place)?;
        match self.named.get(place) {
            Some(named) => nodes_at(self.alloc, named),
            None => Ok(Vec::new(self.alloc)),
        }
    }

    fn class_of(&self, node: Node) -> u32 {
        number_at(self.classes.as_slice(), place_of(node))
    }

    fn unsaved(&self, node: Node) -> bool {
        number_at(self.fresh.as_slice(), place_of(node)) == 1
    }

    ghost closed = { λ s. drawn_closed s.classes.items s.fresh.items };

    ghost same = { λ s t xs h. same_drawn s.classes.items t.classes.items s.fresh.items t.fresh.items h.0 h.1 };

    ghost same_at_fault = { λ s t f xs h. same_drawn s.classes.items t.classes.items s.fresh.items t.fresh.items h.0 h.1 };

    ghost stays = { λ s. (refl, refl) };

    ghost joins = { λ s t u xs ys a b. (b.0 ∙ a.0, b.1 ∙ a.1) };

    ghost memory = { λ s f h. (refl, refl) };

    ghost fails = { λ s t u f xs ys a b. (b.0 ∙ a.0, b.1 ∙ a.1) };
}

impl Drawn {
    fn new(alloc: Global) -> Drawn {
        Drawn {
            alloc,
            named: Vec::new(alloc),
            classes: Vec::new(alloc),
            fresh: Vec::new(alloc),
            asked: Vec::new(alloc),
        }
    }

    fn add(&mut self, named: &[u32], class: u32, fresh: u32) -> Result<(), AllocError> {
        self.named.push(Vec::from_slice(self.alloc, named)?)?;
        self.classes.push(class)?;
        self.fresh.push(fresh)?;
        Ok(())
    }
}

const PLAIN: ClassSettings = ClassSettings {
    minimum: 0,
    maximum: 65_535,
    update: None,
    cascade_activate: false,
    cascade_update: false,
    cascade_delete: false,
};

fn settings_by(alloc: Global, classes: &[ClassSettings]) -> Result<Settings, AllocError> {
    let mut settings = Settings::new(alloc);
    let mut class: u32 = 0;
    for to in classes {
        settings.set(class, *to)?;
        class = class.wrapping_add(1);
    }
    Ok(settings)
}

fn places(alloc: Global, list: &[(Node, u32)]) -> Result<Vec<(usize, u32)>, AllocError> {
    let mut places = Vec::new(alloc);
    for (node, budget) in list {
        places.push((place_of(*node), *budget))?;
    }
    Ok(places)
}

/// Numbers that look like chance.
#[derive(Drop)]
struct Dice {
    state: u32,
}

impl Dice {
    fn roll(&mut self) -> u32 {
        self.state ^= self.state << 13;
        self.state ^= self.state >> 17;
        self.state ^= self.state << 5;
        self.state
    }

    fn is_one_of(&mut self, many: u32) -> bool {
        self.roll() % many.max(1) == 0
    }
}

/// A graph of up to thirty nodes. Unsaved ones are live.
fn drawn_by(alloc: Global, dice: &mut Dice) -> Result<Drawn, AllocError> {
    let mut drawn = Drawn::new(alloc);
    let count = 1 + dice.roll() % 30;
    for place in 0..count {
        let mut named = Vec::new(alloc);
        for _ in 0..dice.roll() % 5 {
            named.push(dice.roll() % count)?;
        }
        let class = dice.roll() % 3;
        let fresh = dice.roll() & place & 1;
        drawn.add(named.as_slice(), class, fresh)?;
    }
    Ok(drawn)
}

/// Live objects come before numbers, and here these are the odd places.
fn is_before(one: usize, two: usize) -> bool {
    (one % 2 == 0, one) < (two % 2 == 0, two)
}

/// Whether these are the places with a budget, in their order, and each was asked for once.
fn is_right(drawn: &Drawn, places: &[(usize, u32)], budgets: &[u32]) -> bool {
    let count = budgets.iter().filter(|budget| **budget > 0).count();
    let in_order = places
        .windows(2)
        .all(|pair| is_before(pair[0].0, pair[1].0));
    let alike = places
        .iter()
        .all(|place| budgets.get(place.0).copied() == Some(place.1));
    let asked = drawn.asked.as_slice();
    let once = places.iter().all(|place| asked.iter().filter(|one| **one == place.0).count() == 1);
    in_order && alike && once && places.len() == count && asked.len() == count
}

/// Which plan is made.
#[derive(Clone, Copy, PartialEq, Eq)]
enum Kind {
    Store,
    Delete,
}

/// What is reached, by places. A delete has no depth.
fn planned(
    drawn: &mut Drawn,
    classes: &[ClassSettings],
    kind: Kind,
    root: u32,
    depth: u32,
) -> Result<Vec<(usize, u32)>, AllocError> {
    let alloc = drawn.alloc;
    let settings = settings_by(alloc, classes)?;
    let list = match kind {
        Kind::Store => plan_store(alloc, drawn, &settings, node_at(root), depth.min(65_535))?,
        Kind::Delete => plan_delete(alloc, drawn, &settings, node_at(root))?,
    };
    places(alloc, list.as_slice())
}

fn arrives(drawn: &Drawn, kind: Kind, place: usize, handed: u32) -> u32 {
    let fresh = number_at(drawn.fresh.as_slice(), place) == 1;
    if kind == Kind::Store && fresh {
        handed.max(1)
    } else {
        handed
    }
}

fn hands(kind: Kind, class: ClassSettings, budget: u32) -> u32 {
    match kind {
        Kind::Store if class.cascade_update => budget.saturating_sub(1).max(1),
        Kind::Store => budget.saturating_sub(1),
        Kind::Delete if class.cascade_delete => 1,
        Kind::Delete => 0,
    }
}

fn class_at(drawn: &Drawn, classes: &[ClassSettings], place: usize) -> ClassSettings {
    let class = number_at(drawn.classes.as_slice(), place);
    classes.get(class as usize).copied().unwrap_or(PLAIN)
}

/// What the walk is by its definition: rounds in which each place hands on what it has, until nothing rises.
fn by_rounds(
    drawn: &Drawn,
    classes: &[ClassSettings],
    kind: Kind,
    depth: u32,
) -> Result<Vec<u32>, AllocError> {
    let mut budgets = Vec::new(drawn.alloc);
    for _ in &drawn.named {
        budgets.push(0)?;
    }
    let begins = if kind == Kind::Delete { 1 } else { depth };
    if let Some(budget) = budgets.get_mut(0) {
        *budget = arrives(drawn, kind, 0, begins);
    }
    for _ in 0..u64::MAX {
        if !round(drawn, classes, kind, &mut budgets) {
            break;
        }
    }
    Ok(budgets)
}

/// One round; whether a budget rose.
fn round(drawn: &Drawn, classes: &[ClassSettings], kind: Kind, budgets: &mut Vec<u32>) -> bool {
    let mut rose = false;
    for place in 0..drawn.named.len() {
        let had = number_at(budgets.as_slice(), place);
        if had == 0 {
            continue;
        }
        let handed = hands(kind, class_at(drawn, classes, place), had);
        for to in &drawn.named[place] {
            let to = *to as usize;
            let arrived = arrives(drawn, kind, to, handed);
            if let Some(budget) = budgets.get_mut(to) {
                if *budget < arrived {
                    *budget = arrived;
                    rose = true;
                }
            }
        }
    }
    rose
}

fn class_by(dice: &mut Dice) -> ClassSettings {
    ClassSettings {
        minimum: 7,
        maximum: 3,
        update: None,
        cascade_activate: true,
        cascade_update: dice.is_one_of(4),
        cascade_delete: dice.is_one_of(2),
    }
}

#[test]
fn two_thousand_graphs_are_planned_as_by_rounds(rt: HostRuntime) -> Result<(), Fail> {
    let alloc = rt.alloc();
    let mut dice = Dice { state: 29 };
    let mut most = 0;
    for turn in 0..2_000 {
        let mut drawn = drawn_by(alloc, &mut dice)?;
        let classes = [
            class_by(&mut dice),
            class_by(&mut dice),
            class_by(&mut dice),
        ];
        let kind = if turn % 3 == 0 {
            Kind::Delete
        } else {
            Kind::Store
        };
        let depth = dice.roll() % 7;
        let places = planned(&mut drawn, &classes, kind, 0, depth)?;
        let budgets = by_rounds(&drawn, &classes, kind, depth)?;
        assert!(rt; is_right(&drawn, places.as_slice(), budgets.as_slice()));
        most = places.len().max(most);
    }
    assert!(rt; most > 20);
    Ok(())
}

/// The edges from each place, the class of each place, which places are unsaved, the settings of class 1, the plan, the root, the depth, and what is reached.
type Row = (
    &'static [&'static [u32]],
    &'static [u32],
    &'static [u32],
    ClassSettings,
    Kind,
    u32,
    u32,
    &'static [(usize, u32)],
);

const DIAMOND: &[&[u32]] = &[&[], &[2, 4], &[3], &[4], &[5], &[6], &[]];

const TWO: &[&[u32]] = &[&[1], &[0]];

const CHAIN: &[&[u32]] = &[&[1], &[2], &[3], &[4], &[]];

const UPDATES: ClassSettings = ClassSettings {
    cascade_update: true,
    ..PLAIN
};

const DELETES: ClassSettings = ClassSettings {
    cascade_delete: true,
    ..PLAIN
};

const OTHERS: ClassSettings = ClassSettings {
    minimum: 3,
    maximum: 0,
    cascade_activate: true,
    ..PLAIN
};

const ROWS: &[Row] = &[
    (
        DIAMOND,
        &[],
        &[],
        PLAIN,
        Kind::Store,
        1,
        4,
        &[(1, 4), (3, 2), (5, 2), (2, 3), (4, 3), (6, 1)],
    ),
    (DIAMOND, &[], &[], PLAIN, Kind::Store, 2, 0, &[]),
    (TWO, &[], &[], PLAIN, Kind::Store, 0, 3, &[(1, 2), (0, 3)]),
    (
        TWO,
        &[1, 1],
        &[],
        OTHERS,
        Kind::Store,
        0,
        3,
        &[(1, 2), (0, 3)],
    ),
    (
        TWO,
        &[],
        &[],
        PLAIN,
        Kind::Store,
        0,
        65_535,
        &[(1, 65_534), (0, 65_535)],
    ),
    // A stored object that is named isn't written with depth 1.
    (CHAIN, &[], &[], PLAIN, Kind::Store, 0, 1, &[(0, 1)]),
    // An unsaved one is, and so is one that only unsaved ones lead to.
    (
        CHAIN,
        &[],
        &[0, 1],
        PLAIN,
        Kind::Store,
        0,
        1,
        &[(1, 1), (0, 1)],
    ),
    (
        CHAIN,
        &[],
        &[0, 1, 1, 1],
        PLAIN,
        Kind::Store,
        0,
        1,
        &[(1, 1), (3, 1), (0, 1), (2, 1)],
    ),
    (
        CHAIN,
        &[],
        &[0, 1, 0, 1],
        PLAIN,
        Kind::Store,
        0,
        1,
        &[(1, 1), (0, 1)],
    ),
    (
        CHAIN,
        &[],
        &[0, 1, 0, 1],
        PLAIN,
        Kind::Store,
        0,
        3,
        &[(1, 2), (3, 1), (0, 3), (2, 1)],
    ),
    // An unsaved root is stored with depth 0, and a stored one isn't.
    (CHAIN, &[], &[0, 1], PLAIN, Kind::Store, 1, 0, &[(1, 1)]),
    (CHAIN, &[], &[], PLAIN, Kind::Store, 1, 0, &[]),
    // The class of the node that hands on cascades, and not that of the node that is met.
    (
        CHAIN,
        &[1],
        &[],
        UPDATES,
        Kind::Store,
        0,
        1,
        &[(1, 1), (0, 1)],
    ),
    (CHAIN, &[0, 1], &[], UPDATES, Kind::Store, 0, 1, &[(0, 1)]),
    (
        CHAIN,
        &[1, 1],
        &[],
        UPDATES,
        Kind::Store,
        0,
        1,
        &[(1, 1), (0, 1), (2, 1)],
    ),
    (CHAIN, &[1, 1], &[], DELETES, Kind::Store, 0, 1, &[(0, 1)]),
    (CHAIN, &[], &[], PLAIN, Kind::Delete, 0, 0, &[(0, 1)]),
    (
        CHAIN,
        &[1],
        &[],
        DELETES,
        Kind::Delete,
        0,
        0,
        &[(1, 1), (0, 1)],
    ),
    (CHAIN, &[0, 1], &[], DELETES, Kind::Delete, 0, 0, &[(0, 1)]),
    (
        CHAIN,
        &[1, 1, 0, 1],
        &[],
        DELETES,
        Kind::Delete,
        0,
        0,
        &[(1, 1), (0, 1), (2, 1)],
    ),
    (
        CHAIN,
        &[1, 1],
        &[0, 1, 1],
        UPDATES,
        Kind::Delete,
        0,
        0,
        &[(0, 1)],
    ),
    (
        TWO,
        &[1, 1],
        &[],
        DELETES,
        Kind::Delete,
        1,
        0,
        &[(1, 1), (0, 1)],
    ),
];

#[test]
fn rows_are_planned(rt: HostRuntime) -> Result<(), Fail> {
    let alloc = rt.alloc();
    for (edges, classes, fresh, one, kind, root, depth, want) in ROWS {
        let mut drawn = Drawn::new(alloc);
        for (place, named) in edges.iter().enumerate() {
            drawn.add(named, number_at(classes, place), number_at(fresh, place))?;
        }
        let places = planned(&mut drawn, &[PLAIN, *one], *kind, *root, *depth)?;
        assert!(rt; places.as_slice() == *want);
        assert!(rt; drawn.asked.len() == want.len());
    }
    Ok(())
}
