ghost use Rattle.std.specs.Prelude.{◌≡◌, ◌≤◌, Some, false, refl, slice_index, IfOk, OnOk};
ghost use Rattle.std.specs.List.{All};
ghost use Rattle.std.proofs.Common.{◌∙◌};
ghost use Rattle.oc_model.specs.Lists.{IsOneOf};
ghost use Rattle.oc_reach.specs.Drawn.{every_node, place};
ghost use Rattle.oc_reach.specs.Graphs.{AreInRange};
ghost use Rattle.oc_activate.specs.Drawn.{drawn_graph, drawn_closed, same_drawn};

use crate::{Walk, plan};
use oc_reach::{ClassSettings, Graph, Node, Settings};
use std::alloc::{AllocError, Global};
use std::test::Fail;

/// The node of a place: odd places are live objects.
fn node_at(place: u32) -> Node
    ensures { IsOneOf result every_node }
{
    if place % 2 == 1 {
        Node::Live(u64::from(place))
    } else {
        Node::Number(place)
    }
}

fn place_of(node: Node) -> usize
    ensures { result ≡ place node }
{
    match node {
        Node::Live(handle) => handle as usize,
        Node::Number(number) => number as usize,
    }
}

fn number_at(numbers: &[u32], place: usize) -> u32
    ensures { result ≡ slice_index numbers.now place }
{
    numbers.get(place).copied().unwrap_or(0)
}

fn nodes_at(alloc: Global, places: &[u32]) -> Result<Vec<Node>, AllocError>
    ensures { IfOk result (λ v. All (λ y. IsOneOf y every_node) v.items) }
{
    let mut nodes = Vec::new(alloc);
    for place in places {
        nodes.push(node_at(*place))?;
    }
    Ok(nodes)
}

/// A graph by places. Each place has a class, and 1 where it is unsaved. Each call of `next` is noted.
#[derive(Drop)]
struct Drawn {
    alloc: Global,
    named: Vec<Vec<u32>>,
    classes: Vec<u32>,
    fresh: Vec<u32>,
    asked: Vec<usize>,
}

impl Graph for Drawn {
    type Fault = AllocError;

    ghost tells = { false };

    ghost shown = { λ s. drawn_graph s.classes.items s.fresh.items };

    ghost Goes = { λ s t _. (t.classes.items ≡ s.classes.items) × (t.fresh.items ≡ s.fresh.items) };

    ghost Caused = { λ s _ t _. (t.classes.items ≡ s.classes.items) × (t.fresh.items ≡ s.fresh.items) };

    fn next(&mut self, node: Node) -> Result<Vec<Node>, AllocError> {
        let place = place_of(node);
        self.asked.push(place)?;
        match self.named.get(place) {
            Some(named) => nodes_at(self.alloc, named),
            None => Ok(Vec::new(self.alloc)),
        }
    }

    fn class_of(&self, node: Node) -> u32 {
        number_at(self.classes.as_slice(), place_of(node))
    }

    fn unsaved(&self, node: Node) -> bool {
        number_at(self.fresh.as_slice(), place_of(node)) == 1
    }

    ghost closed = { λ s. drawn_closed s.classes.items s.fresh.items };

    ghost same = { λ s t xs h. same_drawn s.classes.items t.classes.items s.fresh.items t.fresh.items h.0 h.1 };

    ghost same_at_fault = { λ s t f xs h. same_drawn s.classes.items t.classes.items s.fresh.items t.fresh.items h.0 h.1 };

    ghost stays = { λ s. (refl, refl) };

    ghost joins = { λ s t u xs ys a b. (b.0 ∙ a.0, b.1 ∙ a.1) };

    ghost memory = { λ s f h. (refl, refl) };

    ghost fails = { λ s t u f xs ys a b. (b.0 ∙ a.0, b.1 ∙ a.1) };
}

impl Drawn {
    fn new(alloc: Global) -> Drawn {
        Drawn {
            alloc,
            named: Vec::new(alloc),
            classes: Vec::new(alloc),
            fresh: Vec::new(alloc),
            asked: Vec::new(alloc),
        }
    }

    fn add(&mut self, named: &[u32], class: u32, fresh: u32) -> Result<(), AllocError> {
        self.named.push(Vec::from_slice(self.alloc, named)?)?;
        self.classes.push(class)?;
        self.fresh.push(fresh)?;
        Ok(())
    }
}

const PLAIN: ClassSettings = ClassSettings {
    minimum: 0,
    maximum: 65_535,
    update: None,
    cascade_activate: false,
    cascade_update: false,
    cascade_delete: false,
};

fn set(settings: &mut Settings, class: u32, to: ClassSettings) -> Result<(), AllocError>
    requires { AreInRange settings.old }
    ensures { OnOk result (AreInRange settings.new) }
{
    let minimum = to.minimum.min(65_535);
    let maximum = to.maximum.min(65_535);
    let within = ClassSettings {
        minimum,
        maximum,
        update: None,
        cascade_activate: to.cascade_activate,
        cascade_update: to.cascade_update,
        cascade_delete: to.cascade_delete,
    };
    settings.set(class, within)
}

#[tactic(auto, using(crate::proofs::Ranges::in_range_start))]
fn settings_by(alloc: Global, classes: &[ClassSettings]) -> Result<Settings, AllocError>
    ensures { IfOk result AreInRange }
{
    let mut settings = Settings::new(alloc);
    let mut class = 0;
    for to in classes {
        set(&mut settings, class, *to)?;
        class = class.wrapping_add(1);
    }
    Ok(settings)
}

fn places(alloc: Global, list: &[(Node, u32)]) -> Result<Vec<(usize, u32)>, AllocError> {
    let mut places = Vec::new(alloc);
    for (node, budget) in list {
        places.push((place_of(*node), *budget))?;
    }
    Ok(places)
}

/// Numbers that look like chance.
#[derive(Drop)]
struct Dice {
    state: u32,
}

impl Dice {
    fn roll(&mut self) -> u32 {
        self.state ^= self.state << 13;
        self.state ^= self.state >> 17;
        self.state ^= self.state << 5;
        self.state
    }

    fn is_one_of(&mut self, many: u32) -> bool {
        self.roll() % many.max(1) == 0
    }
}

/// A graph of up to thirty nodes. Unsaved ones are live.
fn drawn_by(alloc: Global, dice: &mut Dice) -> Result<Drawn, AllocError> {
    let mut drawn = Drawn::new(alloc);
    let count = 1 + dice.roll() % 30;
    for place in 0..count {
        let mut named = Vec::new(alloc);
        for _ in 0..dice.roll() % 5 {
            named.push(dice.roll() % count)?;
        }
        let class = dice.roll() % 3;
        let fresh = dice.roll() & place & 1;
        drawn.add(named.as_slice(), class, fresh)?;
    }
    Ok(drawn)
}

/// Live objects come before numbers, and here these are the odd places.
fn is_before(one: usize, two: usize) -> bool {
    (one % 2 == 0, one) < (two % 2 == 0, two)
}

/// Whether these are the places with a budget, in their order, and each was asked for once.
fn is_right(drawn: &Drawn, places: &[(usize, u32)], budgets: &[u32]) -> bool {
    let count = budgets.iter().filter(|budget| **budget > 0).count();
    let in_order = places
        .windows(2)
        .all(|pair| is_before(pair[0].0, pair[1].0));
    let alike = places
        .iter()
        .all(|place| budgets.get(place.0).copied() == Some(place.1));
    let asked = drawn.asked.as_slice();
    let once = places.iter().all(|place| asked.iter().filter(|one| **one == place.0).count() == 1);
    in_order && alike && once && places.len() == count && asked.len() == count
}

/// What is reached, by places.
fn planned(
    drawn: &mut Drawn,
    classes: &[ClassSettings],
    walk: Walk,
    root: u32,
    depth: u32,
) -> Result<Vec<(usize, u32)>, AllocError> {
    let alloc = drawn.alloc;
    let settings = settings_by(alloc, classes)?;
    let list = plan(
        alloc,
        drawn,
        &settings,
        walk,
        node_at(root),
        depth.min(65_535),
    )?;
    places(alloc, list.as_slice())
}

fn arrives(walk: Walk, class: ClassSettings, handed: u32) -> u32 {
    if walk == Walk::Activate {
        handed.max(class.minimum).min(class.maximum)
    } else {
        handed
    }
}

fn hands(walk: Walk, class: ClassSettings, budget: u32) -> u32 {
    match walk {
        Walk::Activate if class.cascade_activate => budget.saturating_sub(1).max(1),
        Walk::Show => 1,
        _ => budget.saturating_sub(1),
    }
}

fn class_at(drawn: &Drawn, classes: &[ClassSettings], place: usize) -> ClassSettings {
    let class = number_at(drawn.classes.as_slice(), place);
    classes.get(class as usize).copied().unwrap_or(PLAIN)
}

/// What the walk is by its definition: rounds in which each place hands on what it has, until nothing rises.
fn by_rounds(
    drawn: &Drawn,
    classes: &[ClassSettings],
    walk: Walk,
    depth: u32,
) -> Result<Vec<u32>, AllocError> {
    let mut budgets = Vec::new(drawn.alloc);
    for _ in &drawn.named {
        budgets.push(0)?;
    }
    let begins = if walk == Walk::Show { 1 } else { depth };
    if let Some(budget) = budgets.get_mut(0) {
        *budget = arrives(walk, class_at(drawn, classes, 0), begins);
    }
    for _ in 0..u64::MAX {
        if !round(drawn, classes, walk, &mut budgets) {
            break;
        }
    }
    Ok(budgets)
}

/// One round; whether a budget rose.
fn round(drawn: &Drawn, classes: &[ClassSettings], walk: Walk, budgets: &mut Vec<u32>) -> bool {
    let mut rose = false;
    for place in 0..drawn.named.len() {
        let had = number_at(budgets.as_slice(), place);
        if had == 0 {
            continue;
        }
        let handed = hands(walk, class_at(drawn, classes, place), had);
        for to in &drawn.named[place] {
            let to = *to as usize;
            let arrived = arrives(walk, class_at(drawn, classes, to), handed);
            if let Some(budget) = budgets.get_mut(to) {
                if *budget < arrived {
                    *budget = arrived;
                    rose = true;
                }
            }
        }
    }
    rose
}

fn class_by(dice: &mut Dice) -> ClassSettings {
    let minimum = if dice.is_one_of(3) {
        dice.roll() % 5
    } else {
        0
    };
    let maximum = if dice.is_one_of(3) {
        dice.roll() % 5
    } else {
        65_535
    };
    ClassSettings {
        minimum,
        maximum,
        update: None,
        cascade_activate: dice.is_one_of(4),
        cascade_update: true,
        cascade_delete: true,
    }
}

const WALKS: &[Walk] = &[
    Walk::Activate,
    Walk::Activate,
    Walk::Activate,
    Walk::Deactivate,
    Walk::Refresh,
    Walk::Peek,
    Walk::Show,
];

#[test]
fn two_thousand_graphs_are_planned_as_by_rounds(rt: HostRuntime) -> Result<(), Fail> {
    let alloc = rt.alloc();
    let mut dice = Dice { state: 23 };
    let mut most = 0;
    for turn in 0..2_000 {
        let mut drawn = drawn_by(alloc, &mut dice)?;
        let classes = [
            class_by(&mut dice),
            class_by(&mut dice),
            class_by(&mut dice),
        ];
        let walk = WALKS[turn % 7];
        let depth = dice.roll() % 9;
        let places = planned(&mut drawn, &classes, walk, 0, depth)?;
        let budgets = by_rounds(&drawn, &classes, walk, depth)?;
        assert!(rt; is_right(&drawn, places.as_slice(), budgets.as_slice()));
        most = places.len().max(most);
    }
    assert!(rt; most > 20);
    Ok(())
}

/// The edges from each place, the class of each place, the settings of class 1, the walk, the root, the depth, and what is reached.
type Row = (
    &'static [&'static [u32]],
    &'static [u32],
    ClassSettings,
    Walk,
    u32,
    u32,
    &'static [(usize, u32)],
);

const DIAMOND: &[&[u32]] = &[&[], &[2, 4], &[3], &[4], &[5], &[6], &[]];

const TWO: &[&[u32]] = &[&[1], &[0]];

const CHAIN: &[&[u32]] = &[&[2], &[], &[4], &[], &[6], &[], &[]];

const NARROW: ClassSettings = ClassSettings {
    minimum: 0,
    maximum: 0,
    ..PLAIN
};

const DEEP: ClassSettings = ClassSettings {
    minimum: 2,
    ..PLAIN
};

const CROSSED: ClassSettings = ClassSettings {
    minimum: 5,
    maximum: 2,
    ..PLAIN
};

const CASCADES: ClassSettings = ClassSettings {
    cascade_activate: true,
    ..PLAIN
};

const OTHERS: ClassSettings = ClassSettings {
    cascade_update: true,
    cascade_delete: true,
    ..PLAIN
};

const ROWS: &[Row] = &[
    (
        DIAMOND,
        &[],
        PLAIN,
        Walk::Activate,
        1,
        4,
        &[(1, 4), (3, 2), (5, 2), (2, 3), (4, 3), (6, 1)],
    ),
    (DIAMOND, &[], PLAIN, Walk::Activate, 1, 0, &[]),
    (DIAMOND, &[], PLAIN, Walk::Activate, 1, 1, &[(1, 1)]),
    (TWO, &[], PLAIN, Walk::Activate, 0, 3, &[(1, 2), (0, 3)]),
    (
        TWO,
        &[],
        PLAIN,
        Walk::Deactivate,
        0,
        65_535,
        &[(1, 65_534), (0, 65_535)],
    ),
    // A minimum of 2 is met with budget 0.
    (
        CHAIN,
        &[0, 0, 1],
        DEEP,
        Walk::Activate,
        0,
        1,
        &[(0, 1), (2, 2), (4, 1)],
    ),
    (CHAIN, &[0, 0, 1], DEEP, Walk::Deactivate, 0, 1, &[(0, 1)]),
    // The maximum is less than the minimum.
    (
        CHAIN,
        &[0, 0, 1],
        CROSSED,
        Walk::Activate,
        0,
        9,
        &[(0, 9), (2, 2), (4, 1)],
    ),
    // The root has the maximum 0.
    (CHAIN, &[1], NARROW, Walk::Activate, 0, 9, &[]),
    (
        CHAIN,
        &[1],
        NARROW,
        Walk::Refresh,
        0,
        9,
        &[(0, 9), (2, 8), (4, 7), (6, 6)],
    ),
    // The class of the node that hands on cascades, and not that of the node that is met.
    (
        CHAIN,
        &[1],
        CASCADES,
        Walk::Activate,
        0,
        1,
        &[(0, 1), (2, 1)],
    ),
    (CHAIN, &[0, 0, 1], CASCADES, Walk::Activate, 0, 1, &[(0, 1)]),
    (
        CHAIN,
        &[1, 0, 1, 0, 1],
        CASCADES,
        Walk::Activate,
        0,
        1,
        &[(0, 1), (2, 1), (4, 1), (6, 1)],
    ),
    (CHAIN, &[1], CASCADES, Walk::Deactivate, 0, 1, &[(0, 1)]),
    (CHAIN, &[1], CASCADES, Walk::Refresh, 0, 1, &[(0, 1)]),
    (CHAIN, &[1], CASCADES, Walk::Peek, 0, 1, &[(0, 1)]),
    (CHAIN, &[1], OTHERS, Walk::Activate, 0, 1, &[(0, 1)]),
    (CHAIN, &[], PLAIN, Walk::Peek, 0, 2, &[(0, 2), (2, 1)]),
    (
        CHAIN,
        &[],
        PLAIN,
        Walk::Show,
        0,
        0,
        &[(0, 1), (2, 1), (4, 1), (6, 1)],
    ),
    (TWO, &[], PLAIN, Walk::Show, 1, 65_535, &[(1, 1), (0, 1)]),
];

#[test]
fn rows_are_planned(rt: HostRuntime) -> Result<(), Fail> {
    let alloc = rt.alloc();
    for (edges, classes, one, walk, root, depth, want) in ROWS {
        let mut drawn = Drawn::new(alloc);
        for (place, named) in edges.iter().enumerate() {
            drawn.add(named, number_at(classes, place), 0)?;
        }
        let places = planned(&mut drawn, &[PLAIN, *one], *walk, *root, *depth)?;
        assert!(rt; places.as_slice() == *want);
        assert!(rt; drawn.asked.len() == want.len());
    }
    Ok(())
}
