//! Walks over graphs of objects in a row.

ghost use Rattle.std.specs.Prelude.{◌≡◌, IfOk, false, refl};
ghost use Rattle.std.specs.List.{All};
ghost use Rattle.std.proofs.Common.{◌∙◌, ap, sym};
ghost use Rattle.oc_model.specs.declared.reach.Node.{Node};
ghost use Rattle.oc_model.specs.Lists.{IsOneOf};
ghost use Rattle.oc_reach.specs.Graphs.{AreInRange};
ghost use Rattle.bench_parts.specs.Rows.{row, row_graph, row_closed};

use crate::fault::Fault;
use oc_activate::{Walk, plan};
use oc_reach::{ClassSettings, Graph, Node, Settings};
use oc_update::plan_store;
use std::alloc::{AllocError, Global};

/// What the objects of a row name: the next one, all from the first, all others, or the next in a circle.
#[derive(Clone, Copy)]
pub enum Shape {
    Chain,
    Star,
    Complete,
    Cycle,
}

/// So many live objects, with the handles from 0 on.
#[derive(Drop)]
struct Row {
    alloc: Global,
    shape: Shape,
    count: u64,
    unsaved: bool,
}

impl Graph for Row {
    type Fault = AllocError;

    ghost tells = { false };

    ghost shown = { λ s. row_graph s.count s.unsaved };

    ghost Goes = { λ s t _. t ≡ s };

    ghost Caused = { λ s _ t _. t ≡ s };

    fn next(&mut self, node: Node) -> Result<Vec<Node>, AllocError> {
        match node {
            Node::Live(handle) => named(self.alloc, self.shape, self.count, handle),
            Node::Number(_) => Ok(Vec::new(self.alloc)),
        }
    }

    fn class_of(&self, _node: Node) -> u32 {
        1
    }

    fn unsaved(&self, _node: Node) -> bool {
        self.unsaved
    }

    ghost closed = { λ s. row_closed s.count s.unsaved };

    ghost same = { λ s t xs h. sym (ap (λ r. row_graph r.count r.unsaved) h) };

    ghost same_at_fault = { λ s t f xs h. sym (ap (λ r. row_graph r.count r.unsaved) h) };

    ghost stays = { λ s. refl };

    ghost joins = { λ s t u xs ys a b. b ∙ a };

    ghost memory = { λ s f h. refl };

    ghost fails = { λ s t u f xs ys a b. b ∙ a };
}

/// What the object with this handle names.
fn named(alloc: Global, shape: Shape, count: u64, handle: u64) -> Result<Vec<Node>, AllocError>
    ensures { IfOk result (λ v. All (λ y. IsOneOf y (row count)) v.items) }
{
    let next = handle.wrapping_add(1);
    match shape {
        Shape::Chain => between(alloc, count, next, next.wrapping_add(1)),
        Shape::Star if handle == 0 => between(alloc, count, 1, count),
        Shape::Star => Ok(Vec::new(alloc)),
        Shape::Complete => between(alloc, count, 0, count),
        Shape::Cycle if next < count => between(alloc, count, next, next.wrapping_add(1)),
        Shape::Cycle => between(alloc, count, 0, 1),
    }
}

/// The objects with the handles from the first up to the end, those of the row.
fn between(alloc: Global, count: u64, first: u64, end: u64) -> Result<Vec<Node>, AllocError>
    ensures { IfOk result (λ v. All (λ y. IsOneOf y (row count)) v.items) }
{
    let mut nodes = Vec::new(alloc);
    for handle in first..end.min(count) {
        nodes.push(Node::Live(handle))?;
    }
    Ok(nodes)
}

/// How many objects a store reaches from the first one of an unsaved row.
pub fn stored(alloc: Global, shape: Shape, count: u32) -> Result<u64, Fault> {
    let mut row = Row {
        alloc,
        shape,
        count: u64::from(count),
        unsaved: true,
    };
    if count == 0 {
        return Ok(0);
    }
    let settings = Settings::new(alloc);
    let reached = plan_store(alloc, &mut row, &settings, Node::Live(0), 1)?;
    Ok(reached.len() as u64)
}

/// How many objects an activation reaches from the first one of a row with the greatest depth, where their class has
/// this minimum.
pub fn activated(alloc: Global, shape: Shape, minimum: u32, count: u32) -> Result<u64, Fault> {
    let mut row = Row {
        alloc,
        shape,
        count: u64::from(count),
        unsaved: false,
    };
    if count == 0 {
        return Ok(0);
    }
    let settings = with_minimum(alloc, minimum)?;
    let reached = plan(
        alloc,
        &mut row,
        &settings,
        Walk::Activate,
        Node::Live(0),
        65_535,
    )?;
    Ok(reached.len() as u64)
}

/// The settings of the start, with this minimum for the class of a row.
fn with_minimum(alloc: Global, minimum: u32) -> Result<Settings, AllocError>
    ensures { IfOk result AreInRange }
{
    let mut settings = Settings::new(alloc);
    let of_row = ClassSettings {
        minimum: minimum.min(65_535),
        maximum: 65_535,
        update: None,
        cascade_activate: false,
        cascade_update: false,
        cascade_delete: false,
    };
    settings.set(1, of_row)?;
    Ok(settings)
}
