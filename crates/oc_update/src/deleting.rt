//! The walk of a delete.

ghost use Rattle.std.specs.Prelude.{◌≡◌, if◌then◌else◌, refl};
ghost use Rattle.std.proofs.Common.{◌∙◌};
ghost use Rattle.oc_reach.specs.Graphs.{delete_over};
ghost use Rattle.oc_update.specs.Plans.{same_delete};
ghost use Rattle.oc_reach.proofs.GraphLaws.{delete_over_lawful};

use oc_reach::{Graph, Node, Settings, Spread};

/// What a delete goes over.
#[derive(Drop)]
pub(crate) struct Deleting<'g, 's, G> {
    pub(crate) graph: &'g mut G,
    pub(crate) settings: &'s Settings,
}

/// 1 if the test holds, and else 0.
fn one_if(test: bool) -> u32
    ensures { result ≡ if test then 1 else 0 }
{
    if test { 1 } else { 0 }
}

impl<G: Graph> Spread for Deleting<'_, '_, G> {
    type Fault = G::Fault;

    ghost tells = { G.tells };

    ghost walk = { λ s. delete_over s.settings.now (G.shown s.graph.now) };

    ghost Goes = { λ s t xs. (t.graph.ghost_name ≡ s.graph.ghost_name) × (t.settings.now ≡ s.settings.now) × G.Goes s.graph.now t.graph.now xs };

    ghost Caused = { λ s f t xs. (t.graph.ghost_name ≡ s.graph.ghost_name) × (t.settings.now ≡ s.settings.now) × G.Caused s.graph.now f t.graph.now xs };

    fn next(&mut self, node: Node) -> Result<Vec<Node>, G::Fault> {
        self.graph.next(node)
    }

    fn arrive(&self, _node: Node, handed: u32) -> u32 {
        handed
    }

    fn hand(&self, node: Node, _budget: u32) -> u32 {
        let class = self.settings.of(self.graph.class_of(node));
        one_if(class.cascade_delete)
    }

    ghost lawful = { λ s. delete_over_lawful s.settings.now (G.shown s.graph.now) (G.closed s.graph.now) };

    ghost same = { λ s t xs h. same_delete s.settings.now t.settings.now (G.shown s.graph.now) (G.shown t.graph.now) h.1 (G.same _ _ xs h.2) };

    ghost same_at_fault = { λ s t f xs h. same_delete s.settings.now t.settings.now (G.shown s.graph.now) (G.shown t.graph.now) h.1 (G.same_at_fault _ _ f xs h.2) };

    ghost stays = { λ s. (refl, refl, G.stays s.graph.now) };

    ghost joins = { λ s t u xs ys a b. (b.0 ∙ a.0, b.1 ∙ a.1, G.joins _ _ _ xs ys a.2 b.2) };

    ghost memory = { λ s f h. (refl, refl, G.memory s.graph.now f h) };

    ghost fails = { λ s t u f xs ys a b. (b.0 ∙ a.0, b.1 ∙ a.1, G.fails _ _ _ f xs ys a.2 b.2) };
}
