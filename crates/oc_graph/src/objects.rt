//! The objects of a run as a graph.

ghost use Rattle.std.specs.Prelude.{◌≡◌, IsTrue};
ghost use Rattle.oc_store.specs.Filed.{Agrees};
ghost use Rattle.oc_graph.specs.Objects.{sight_of, Caused, Goes};
ghost use Rattle.oc_graph.specs.Sights.{graph_in};
ghost use Rattle.oc_graph.specs.Closed.{graph_closed};
ghost use Rattle.oc_graph.specs.Going.{fails_then, goes_nowhere, goes_then, graph_stays, graph_stays_at_fault, memory_lacks};

use crate::nodes::{class_of, is_unsaved};
use crate::records::next;
use oc_host::Host;
use oc_live::LiveObjects;
use oc_model::reach::Node;
use oc_reach::Graph;
use oc_store::{ReadFault, Store};
use std::alloc::Global;
use std::marker::Model;

/// The objects of a run over a file: those in memory, and those of the session in the file.
///
/// A node names what its values in memory name where they are there, else what its record in the session names. A reference to an
/// object that the session hasn't, and a handle that isn't live, name nothing.
#[derive(Drop)]
pub struct Objects<'r, H: Host> {
    alloc: Global,
    live: &'r LiveObjects,
    store: &'r mut Store,
    host: &'r mut H,
}

impl<'r, H: Host> Model for Objects<'r, H> {
    ghost use Rattle.std.specs.Prelude.{IsTrue};
    ghost use Rattle.oc_store.specs.Filed.{Agrees};
    ghost use Rattle.oc_graph.specs.Objects.{RunObjects};

    ghost Value = { RunObjects };

    ghost view = { λ o. record { store_name = o.store.ghost_name; host_name = o.host.ghost_name; memory = o.live.now; store = o.store.now; disk = H.disk o.host.now; faults = H.faults o.host.now; taken = H.taken o.host.now } };

    ghost invariant = { λ o. IsTrue H.tells → Agrees o.store.now (H.disk o.host.now) };
}

impl<'r, H: Host> Objects<'r, H> {
    /// The objects in this memory, and those of the session of the store, which is in the file of this host. It takes no memory.
    pub fn over(
        alloc: Global,
        live: &'r LiveObjects,
        store: &'r mut Store,
        host: &'r mut H,
    ) -> Objects<'r, H>
        requires { IsTrue H.tells → Agrees store.old (H.disk host.old) }
        ensures { result ≡ record { store_name = store.entry.ghost_name; host_name = host.entry.ghost_name; memory = live.entry.now; store = store.old; disk = H.disk host.old; faults = H.faults host.old; taken = H.taken host.old } }
    {
        Objects {
            alloc,
            live,
            store,
            host,
        }
    }

    /// The store and the host that these objects are of, as they are by now.
    pub fn into_parts(self) -> (&'r mut Store, &'r mut H)
        ensures store_name { result.0.ghost_name ≡ self.entry.store_name }
        ensures host_name { result.1.ghost_name ≡ self.entry.host_name }
        ensures store { result.0.now ≡ self.entry.store }
        ensures disk { H.disk result.1.now ≡ self.entry.disk }
        ensures faults { H.faults result.1.now ≡ self.entry.faults }
        ensures taken { H.taken result.1.now ≡ self.entry.taken }
        ensures agrees { IsTrue H.tells → Agrees self.entry.store self.entry.disk }
    {
        let Objects {
            alloc: _,
            live: _,
            store,
            host,
        } = self;
        (store, host)
    }
}

impl<H: Host> Graph for Objects<'_, H> {
    type Fault = ReadFault;

    ghost tells = { H.tells };

    ghost shown = { λ o. graph_in H.tells (sight_of o) };

    ghost Goes = { Goes H.tells };

    ghost Caused = { Caused H.tells };

    fn next(&mut self, node: Node) -> Result<Vec<Node>, ReadFault> {
        next(self.alloc, self.live, self.store, self.host, node)
    }

    fn class_of(&self, node: Node) -> u32 {
        class_of(self.live, self.store, node)
    }

    fn unsaved(&self, node: Node) -> bool {
        is_unsaved(self.live, self.store, node)
    }

    ghost closed = { λ o. graph_closed (sight_of o) H.tells };

    ghost same = { graph_stays H.tells };

    ghost same_at_fault = { graph_stays_at_fault H.tells };

    ghost stays = { goes_nowhere H.tells };

    ghost joins = { goes_then H.tells };

    ghost memory = { memory_lacks H.tells };

    ghost fails = { fails_then H.tells };
}
