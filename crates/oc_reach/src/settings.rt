//! What a run sets for its walks.

ghost use Rattle.std.specs.Prelude.{◌≡◌, nat_le, filter, OnOk, OnErr};
ghost use Rattle.oc_model.specs.Maps.{with_at};
ghost use Rattle.oc_model.specs.States.{settings_of, start_settings};

use oc_model::reach::ClassSettings;
use std::alloc::{AllocError, Global};
use std::collections::BTreeMap;
use std::marker::Model;

/// No depth is greater.
const DEPTH_LIMIT: u32 = 65_535;

/// The depths of a run, and the settings of its classes.
#[derive(Drop)]
pub struct Settings {
    /// The depth of an activation that states none.
    pub activation: u32,
    /// The depth of a store that states none.
    pub update: u32,
    classes: BTreeMap<u32, ClassSettings>,
}

impl Model for Settings {
    ghost use Rattle.oc_model.specs.States.{Settings};

    ghost Value = { Settings };

    ghost view = { λ s. record { activation = s.activation; update = s.update; classes = s.classes.entries } };
}

impl Settings {
    /// The settings of a run for which nothing is set.
    pub fn new(alloc: Global) -> Settings
        ensures { result ≡ start_settings }
    {
        Settings {
            activation: 5,
            update: 1,
            classes: BTreeMap::new(alloc),
        }
    }

    /// The settings of the class, the defaults where nothing is set for it.
    #[tactic(auto, using(crate::proofs::Tables::class_found))]
    pub fn of(&self, class: u32) -> ClassSettings
        ensures { result ≡ settings_of self.now class }
    {
        self.classes.get(&class).copied().unwrap_or(ClassSettings {
            minimum: 0,
            maximum: DEPTH_LIMIT,
            update: None,
            cascade_activate: false,
            cascade_update: false,
            cascade_delete: false,
        })
    }

    /// Enters the settings of the class, in place of those that it had.
    #[tactic(auto, using(crate::proofs::Tables::insert_is))]
    pub fn set(&mut self, class: u32, to: ClassSettings) -> Result<(), AllocError>
        ensures ok { OnOk result (self.new ≡ record self.old { classes = with_at self.old.classes class to }) }
        ensures err { OnErr result (self.new ≡ self.old) }
    {
        self.classes.insert(class, to)?;
        Ok(())
    }

    /// Takes away the settings of the classes with a greater number.
    pub fn drop_above(&mut self, classes: u32)
        ensures { self.new ≡ record self.old { classes = filter (λ e. nat_le e.0 classes) self.old.classes } }
    {
        self.classes.retain(|class, _| *class <= classes);
    }
}
