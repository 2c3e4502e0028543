//! The walk of a store.

ghost use Rattle.std.specs.Prelude.{◌≡◌, ◌-◌, refl};
ghost use Rattle.std.proofs.Common.{◌∙◌};
ghost use Rattle.oc_model.specs.Walks.{at_least_if};
ghost use Rattle.oc_reach.specs.Graphs.{store_over};
ghost use Rattle.oc_update.specs.Plans.{same_store};
ghost use Rattle.oc_reach.proofs.GraphLaws.{store_over_lawful};

use oc_reach::{Graph, Node, Settings, Spread};

/// What a store goes over.
#[derive(Drop)]
pub(crate) struct Storing<'g, 's, G> {
    pub(crate) graph: &'g mut G,
    pub(crate) settings: &'s Settings,
}

/// The budget, at least 1 if the test holds.
fn at_least_if(test: bool, budget: u32) -> u32
    ensures { result ≡ at_least_if test budget }
{
    if test { budget.max(1) } else { budget }
}

impl<G: Graph> Spread for Storing<'_, '_, G> {
    type Fault = G::Fault;

    ghost tells = { G.tells };

    ghost walk = { λ s. store_over s.settings.now (G.shown s.graph.now) };

    ghost Goes = { λ s t xs. (t.graph.ghost_name ≡ s.graph.ghost_name) × (t.settings.now ≡ s.settings.now) × G.Goes s.graph.now t.graph.now xs };

    ghost Caused = { λ s f t xs. (t.graph.ghost_name ≡ s.graph.ghost_name) × (t.settings.now ≡ s.settings.now) × G.Caused s.graph.now f t.graph.now xs };

    fn next(&mut self, node: Node) -> Result<Vec<Node>, G::Fault> {
        self.graph.next(node)
    }

    fn arrive(&self, node: Node, handed: u32) -> u32 {
        at_least_if(self.graph.unsaved(node), handed)
    }

    fn hand(&self, node: Node, budget: u32) -> u32 {
        let class = self.settings.of(self.graph.class_of(node));
        at_least_if(class.cascade_update, budget - 1)
    }

    ghost lawful = { λ s. store_over_lawful s.settings.now (G.shown s.graph.now) (G.closed s.graph.now) };

    ghost same = { λ s t xs h. same_store s.settings.now t.settings.now (G.shown s.graph.now) (G.shown t.graph.now) h.1 (G.same _ _ xs h.2) };

    ghost same_at_fault = { λ s t f xs h. same_store s.settings.now t.settings.now (G.shown s.graph.now) (G.shown t.graph.now) h.1 (G.same_at_fault _ _ f xs h.2) };

    ghost stays = { λ s. (refl, refl, G.stays s.graph.now) };

    ghost joins = { λ s t u xs ys a b. (b.0 ∙ a.0, b.1 ∙ a.1, G.joins _ _ _ xs ys a.2 b.2) };

    ghost memory = { λ s f h. (refl, refl, G.memory s.graph.now f h) };

    ghost fails = { λ s t u f xs ys a b. (b.0 ∙ a.0, b.1 ∙ a.1, G.fails _ _ _ f xs ys a.2 b.2) };
}
