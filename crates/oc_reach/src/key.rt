//! Nodes as keys.

ghost use Rattle.std.specs.Prelude.{◌≡◌, refl};
ghost use Rattle.std.specs.Cmp.{partial_order_from_total, eq_by_cmp_equiv};
ghost use Rattle.std.specs.Cmp as cmp;
ghost use Rattle.std.specs.Ordering.{as_partial_cmp, eq_by_cmp};
ghost use Rattle.oc_model.specs.Walks.{node_cmp};
ghost use Rattle.oc_reach.specs.NodeOrder.{nodes_total};

use oc_model::reach::Node;
use std::cmp::Ordering;
use std::marker::Model;

/// A node in its order: live objects by handle, and then numbers.
#[derive(Clone, Copy)]
pub(crate) struct Key {
    node: Node,
}

impl Model for Key {
    ghost use Rattle.oc_model.specs.declared.reach.Node.{Node};

    ghost Value = { Node };

    ghost view = { λ k. k.node };

    ghost inverse = { λ n. record { node = n } };
}

impl Key {
    pub(crate) fn of(node: Node) -> Key
        ensures { result ≡ node }
    {
        Key { node }
    }

    pub(crate) fn node(self) -> Node
        ensures { result ≡ self }
    {
        self.node
    }
}

impl PartialEq for Key {
    ghost eq = { eq_by_cmp node_cmp };

    ghost laws = { cmp.partial_equiv_from_equiv (eq_by_cmp_equiv nodes_total) };

    fn eq(&self, other: &Key) -> bool {
        self.cmp(other) == Ordering::Equal
    }
}

impl Eq for Key {
    ghost laws = { eq_by_cmp_equiv nodes_total };
}

impl Ord for Key {
    ghost cmp = { node_cmp };

    ghost total = { nodes_total };

    ghost matches_partial_cmp = { λ _ _. refl };

    ghost matches_eq = { λ _ _. refl };

    fn cmp(&self, other: &Key) -> Ordering {
        match (self.node, other.node) {
            (Node::Live(one), Node::Live(two)) => one.cmp(&two),
            (Node::Number(one), Node::Number(two)) => one.cmp(&two),
            (Node::Live(_), Node::Number(_)) => Ordering::Less,
            (Node::Number(_), Node::Live(_)) => Ordering::Greater,
        }
    }
}

impl PartialOrd for Key {
    ghost partial_cmp = { as_partial_cmp node_cmp };

    ghost laws = { partial_order_from_total nodes_total };

    fn partial_cmp(&self, other: &Key) -> Option<Ordering> {
        Some(self.cmp(other))
    }
}
