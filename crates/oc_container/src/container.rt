//! The state of a run over a file.

use oc_live::LiveObjects;
use oc_store::Store;
use std::alloc::Global;
use std::marker::Model;

/// Two stores of objects in a file, and what a run has in memory beside them.
///
/// With its file it is a state of the machine (`Holds`), and each line of a script is a call that makes of it what the step of that line says.
#[derive(Drop)]
pub struct Container {
    pub(crate) alloc: Global,
    pub(crate) store: Store,
    pub(crate) live: LiveObjects,
}

impl Model for Container {
    ghost use Rattle.oc_container.specs.Contained.{Contained, AreOfClasses};

    ghost Value = { Contained };

    ghost view = { λ c. record { store = c.store; memory = c.live } };

    ghost invariant = { λ c. AreOfClasses c.live.settings };
}
