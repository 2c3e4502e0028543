//! A walk over a graph by the rule of its kind.

ghost use Rattle.std.specs.Prelude.{◌≡◌, ◌-◌, refl};
ghost use Rattle.std.proofs.Common.{◌∙◌};
ghost use Rattle.oc_model.specs.Walks.{clamped, at_least_if};
ghost use Rattle.oc_reach.specs.Graphs.{AreInRange};
ghost use Rattle.oc_activate.specs.Plans.{walk_over, plan_lawful, same_over};

use crate::planning::Walk;
use oc_reach::{ClassSettings, Graph, Node, Settings, Spread};

/// The graph, the settings and the walk.
#[derive(Drop)]
pub(crate) struct Walking<'g, 's, G> {
    pub(crate) graph: &'g mut G,
    pub(crate) settings: &'s Settings,
    pub(crate) walk: Walk,
    ghost in_range: { AreInRange settings.now },
}

/// The budget, raised to the minimum of the class and then lowered to its maximum.
fn clamped(class: &ClassSettings, budget: u32) -> u32
    ensures { result ≡ clamped class.now budget }
{
    budget.max(class.minimum).min(class.maximum)
}

/// The budget, at least 1 if the test holds.
fn at_least_if(test: bool, budget: u32) -> u32
    ensures { result ≡ at_least_if test budget }
{
    if test { budget.max(1) } else { budget }
}

impl<G: Graph> Spread for Walking<'_, '_, G> {
    type Fault = G::Fault;

    ghost tells = { G.tells };

    ghost walk = { λ s. walk_over s.walk s.settings.now (G.shown s.graph.now) };

    ghost Goes = { λ s t xs. (t.graph.ghost_name ≡ s.graph.ghost_name) × (t.settings.now ≡ s.settings.now) × (t.walk ≡ s.walk) × G.Goes s.graph.now t.graph.now xs };

    ghost Caused = { λ s f t xs. (t.graph.ghost_name ≡ s.graph.ghost_name) × (t.settings.now ≡ s.settings.now) × (t.walk ≡ s.walk) × G.Caused s.graph.now f t.graph.now xs };

    fn next(&mut self, node: Node) -> Result<Vec<Node>, G::Fault> {
        self.graph.next(node)
    }

    fn arrive(&self, node: Node, handed: u32) -> u32 {
        match self.walk {
            Walk::Activate => clamped(&self.settings.of(self.graph.class_of(node)), handed),
            _ => handed,
        }
    }

    fn hand(&self, node: Node, budget: u32) -> u32 {
        match self.walk {
            Walk::Activate => {
                let class = self.settings.of(self.graph.class_of(node));
                at_least_if(class.cascade_activate, budget - 1)
            }
            Walk::Show => 1,
            _ => budget - 1,
        }
    }

    ghost lawful = { λ s. plan_lawful s.walk s.settings.now (G.shown s.graph.now) s.in_range (G.closed s.graph.now) };

    ghost same = { λ s t xs h. same_over s.walk t.walk s.settings.now t.settings.now (G.shown s.graph.now) (G.shown t.graph.now) h.2 h.1 (G.same _ _ xs h.3) };

    ghost same_at_fault = { λ s t f xs h. same_over s.walk t.walk s.settings.now t.settings.now (G.shown s.graph.now) (G.shown t.graph.now) h.2 h.1 (G.same_at_fault _ _ f xs h.3) };

    ghost stays = { λ s. (refl, refl, refl, G.stays s.graph.now) };

    ghost joins = { λ s t u xs ys a b. (b.0 ∙ a.0, b.1 ∙ a.1, b.2 ∙ a.2, G.joins _ _ _ xs ys a.3 b.3) };

    ghost memory = { λ s f h. (refl, refl, refl, G.memory s.graph.now f h) };

    ghost fails = { λ s t u f xs ys a b. (b.0 ∙ a.0, b.1 ∙ a.1, b.2 ∙ a.2, G.fails _ _ _ f xs ys a.3 b.3) };
}
