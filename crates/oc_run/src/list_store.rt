//! The store of a run, as lists in memory.

ghost use Rattle.std.specs.Prelude.{◌≡◌, ◌+◌, ◌<◌, ◌++◌, ◌∷◌, [], IfOk, OnOk, MatchOption, Some, None, true, false, length};
ghost use Rattle.std.specs.List.{AllByRecursion, list_all};
ghost use Rattle.oc_model.specs.Schemas.{class_named};
ghost use Rattle.oc_model.specs.States.{start, start_settings};
ghost use Rattle.oc_model.specs.Stores.{empty_store};
ghost use Rattle.oc_model.specs.SchemaRules.{has_earlier_parents, is_within_limits};
ghost use Rattle.oc_model.specs.Maps.{at};
ghost use Rattle.oc_machine.specs.Reading.{reads};
ghost use Rattle.oc_machine.specs.Outcomes.{settled};
ghost use Rattle.oc_machine.specs.SchemaLines.{set_schema, class_step};
ghost use Rattle.oc_machine.specs.WalkLines.{make_step};
ghost use Rattle.oc_machine.specs.QueryLines.{query_step};
ghost use Rattle.oc_machine.specs.Runs.{built_step, is_built, is_built_kind, is_built_value};
ghost use Rattle.oc_run.specs.ListStore.{class_of, IsFlat, IsKept, has_room, record_step};

mod built;
mod declared;
mod length;
mod lines;
mod slots;

use built::{are_built_kinds, are_built_values};
use declared::{has_distinct_names, new_fields};
use length::is_short;
use lines::lines;
use oc_model::answer::{Answer, Word};
use oc_model::command::{Command, Decl, Given};
use oc_model::laws_schemas::new_class_limits;
use oc_model::schema::ClassDef;
use oc_model::value::{Rec, Txt};
use slots::entries_given;
use std::alloc::{AllocError, Global};
use std::collections::HashMap;
use std::marker::Model;

/// The most classes that a store has.
const CLASS_LIMIT: usize = 65_535;

/// The most fields of a class.
const FIELD_LIMIT: usize = 255;

/// No field's id reaches this.
const FIELD_ID_END: usize = 4_294_967_295;

/// The greatest number of a record.
const RECORD_NUMBER_LIMIT: usize = 2_147_483_646;

/// The store of a run: its classes, and its records under the numbers from 1 on.
#[derive(Drop)]
pub struct ListStore {
    classes: Vec<ClassDef>,
    next_field: u32,
    records: Vec<Rec>,
    /// The number of each class, by its name.
    numbers: HashMap<Vec<u8>, u32>,
}

impl Model for ListStore {
    ghost use Rattle.oc_model.specs.States.{State};

    ghost Value = { State };

    ghost use Rattle.oc_run.specs.ListStore.{state_of, IsStore};

    ghost view = { λ s. state_of s.classes.items s.next_field s.records.items };

    ghost invariant = { λ s. IsStore s.classes.items s.next_field s.records.items s.numbers };
}

impl ListStore {
    /// The store of a run with no class yet.
    #[tactic(auto, using(crate::proofs::ListLemmas::empty_is_within))]
    pub fn new(alloc: Global) -> ListStore
        ensures { result ≡ start (empty_store 1) }
    {
        ListStore {
            classes: Vec::new(alloc),
            next_field: 1,
            records: Vec::new(alloc),
            numbers: HashMap::new(alloc),
        }
    }

    /// What the command answers. One that the program doesn't have yet is refused as no command, and so is a class whose name is taken.
    #[tactic(auto, unfolding(oc_machine::specs::Machine::step, oc_machine::specs::Runs::is_built))]
    pub fn execute(&mut self, alloc: Global, command: &Command) -> Result<Answer, AllocError>
        ensures { IfOk result (λ a. built_step is_built false self.old (reads command.now) ≡ (self.new, Some a)) }
    {
        match command {
            Command::Class {
                name,
                parent: None,
                fields,
            } if self.class_named(name.as_slice()).is_none()
                && are_built_kinds(fields.as_slice()) => {
                self.declare(alloc, name, fields.as_slice())
            }
            Command::Make { class, givens } if are_built_values(givens.as_slice()) => {
                self.make(alloc, class, givens.as_slice())
            }
            Command::Query {
                class,
                filter: None,
                criteria,
            } if criteria.as_slice().is_empty() => self.query(alloc, class),
            _ => Ok(Answer::Refused(Word::Syntax)),
        }
    }

    /// The number of the class of this name.
    fn class_named(&self, name: &[u8]) -> Option<u32>
        ensures { result ≡ class_named self.now.session.schema name.now }
    {
        self.numbers.get(name).copied()
    }

    /// The class of this name, and its number.
    #[tactic(auto, using(crate::proofs::ListLemmas::named_within, crate::proofs::ListLemmas::class_there, crate::proofs::ListLemmas::next_is_free))]
    fn found(&self, name: &[u8]) -> Option<(u32, &ClassDef)>
        ensures number { MatchOption result (class_named self.now.session.schema name.now ≡ None) (λ p. class_named self.now.session.schema name.now ≡ Some p.0) }
        ensures class { MatchOption result (class_named self.now.session.schema name.now ≡ None) (λ p. class_of self.now.session.schema.classes p.0 ≡ Some p.1.now) }
        ensures flat { AllByRecursion IsFlat self.now.session.schema.classes }
        ensures free { at self.now.session.records self.now.session.next ≡ None }
        ensures settings { self.now.settings ≡ start_settings }
    {
        let classes = &self.classes;
        let number = self.class_named(name)?;
        Some((number, &classes[number as usize - 1]))
    }

    /// Whether there is room for a new class with these fields.
    fn has_room(&self, decls: &[Decl]) -> bool
        ensures room { result ≡ has_room self.now.session.schema decls.now }
        ensures earlier { has_earlier_parents self.now.session.schema ≡ true }
        ensures within { is_within_limits self.now.session.schema ≡ true }
    {
        self.classes.len() < CLASS_LIMIT
            && decls.len() <= FIELD_LIMIT
            && self.next_field as usize + decls.len() <= FIELD_ID_END
    }

    /// A new class, whose name is free.
    #[tactic(auto, using(crate::proofs::NewClasses::room_is))]
    fn declare(&mut self, alloc: Global, name: &Txt, decls: &[Decl]) -> Result<Answer, AllocError>
        requires is_free { class_named self.old.session.schema name.now ≡ None }
        requires are_built { list_all (λ d. is_built_kind d.kind) decls.now ≡ true }
        ensures { IfOk result (λ a. (self.new, a) ≡ settled self.old (class_step self.old name.now None decls.now)) }
    {
        new_class_limits();
        let has_room = self.has_room(decls);
        if !has_distinct_names(alloc, decls)? {
            return Ok(Answer::Refused(Word::Exists));
        }
        if !has_room {
            return Ok(Answer::Refused(Word::Size));
        }
        let class = ClassDef {
            name: name.copy(alloc)?,
            parent: 0,
            fields: new_fields(alloc, self.next_field, decls)?,
        };
        let next_field = self.next_field + decls.len() as u32;
        self.add(alloc, class, next_field)?;
        Ok(Answer::Done)
    }

    /// One class more, whose name is free, and the id that the next new field gets.
    #[tactic(auto, using(crate::proofs::ListLemmas::with_class_kept))]
    fn add(&mut self, alloc: Global, class: ClassDef, next_field: u32) -> Result<(), AllocError>
        requires is_free { class_named self.old.session.schema class.name ≡ None }
        requires has_room { length self.old.session.schema.classes < 65535 }
        requires is_within { is_within_limits (record { classes = self.old.session.schema.classes ++ class ∷ []; next_field = next_field }) ≡ true }
        requires is_flat { IsFlat class }
        ensures { OnOk result (self.new ≡ set_schema self.old (record { classes = self.old.session.schema.classes ++ class ∷ []; next_field = next_field })) }
    {
        let name = Vec::from_slice(alloc, class.name.as_slice())?;
        let number = self.classes.len() as u32 + 1;
        self.classes.push(class)?;
        if let Err(full) = self.numbers.insert(name, number) {
            self.classes.pop();
            return Err(AllocError::from(full));
        }
        self.next_field = next_field;
        Ok(())
    }

    /// A new record of the class of this name.
    #[tactic(auto, using(crate::proofs::Making::make_none))]
    fn make(&mut self, alloc: Global, class: &Txt, givens: &[Given]) -> Result<Answer, AllocError>
        requires { list_all (λ g. is_built_value g.value) givens.now ≡ true }
        ensures { IfOk result (λ a. (self.new, a) ≡ settled self.old (make_step self.old class.now givens.now)) }
    {
        let Some((number, class)) = self.found(class.as_slice()) else {
            return Ok(Answer::Refused(Word::Class));
        };
        match entries_given(alloc, class.fields.as_slice(), givens)? {
            Ok(entries) => self.store(Rec {
                class: number,
                entries,
            }),
            Err(word) => Ok(Answer::Refused(word)),
        }
    }

    /// One record more, under the next number.
    #[tactic(auto, using(crate::proofs::ListLemmas::with_record_kept, crate::proofs::ListLemmas::with_record_is))]
    fn store(&mut self, new: Rec) -> Result<Answer, AllocError>
        requires { IsKept self.old.session.schema.classes new }
        ensures { IfOk result (λ a. (self.new, a) ≡ settled self.old (record_step self.old new)) }
    {
        if !is_short(new.entries.as_slice()) {
            return Ok(Answer::Refused(Word::Size));
        }
        if self.records.len() >= RECORD_NUMBER_LIMIT {
            return Ok(Answer::Refused(Word::Numbers));
        }
        self.records.push(new)?;
        Ok(Answer::Stored {
            number: self.records.len() as u32,
            count: 1,
        })
    }

    /// The records of the class of this name.
    #[tactic(auto, using(crate::proofs::Asking::query_none))]
    fn query(&self, alloc: Global, class: &Txt) -> Result<Answer, AllocError>
        ensures { IfOk result (λ a. (self.now, a) ≡ settled self.now (query_step self.now class.now None [])) }
    {
        let Some((number, class)) = self.found(class.as_slice()) else {
            return Ok(Answer::Refused(Word::Class));
        };
        Ok(Answer::Found(lines(alloc, number, class, &self.records)?))
    }
}
