//! Classes that schemas may share, before they are known to keep the rules.

ghost use Rattle.std.specs.Prelude.{◌≡◌, ◌≤◌, ◌<◌, ◌-◌, ◌++◌, ◌∷◌, [], map, length, get_or, slice_set, true, is_some, IfOk, OnOk, IfSome};
ghost use Rattle.std.specs.Option.{option_copied};
ghost use Rattle.oc_model.specs.Schemas.{empty_schema, class_at, parent_of, fields_of, field_named, is_sub};
ghost use Rattle.oc_model.specs.SchemaRules.{ancestors, has_distinct_classes, has_earlier_parents};
ghost use Rattle.oc_model.specs.SchemaSteps.{stored_fields};
ghost use Rattle.oc_model.specs.StoreRules.{is_known};
ghost use Rattle.oc_schema.specs.Drafts.{schema_of, line_keeps, lines_keep, IsTable};

use crate::distinct::have_distinct_names;
use crate::fields::{current_named, has_field_of, push_current};
use crate::schema::Classes;
use oc_model::schema::{ClassDef, FieldDef};
use oc_model::value::Entry;
use oc_shared::{Sequence, Table};
use std::alloc::{AllocError, Global};
use std::marker::Model;

/// The most ancestors of a class.
const ANCESTOR_LIMIT: usize = 32;

/// The most current fields of a class, with those of its ancestors.
const FIELD_LIMIT: usize = 255;

/// Classes and the id that the next new field gets, whether they keep the rules or not.
#[derive(Drop)]
pub struct Draft {
    classes: Sequence<ClassDef>,
    next_field: u32,
}

impl Model for Draft {
    ghost use Rattle.oc_model.specs.Schemas.{Schema};

    ghost Value = { Schema };

    ghost use Rattle.oc_schema.specs.Drafts.{schema_of};

    ghost view = { λ d. schema_of d.classes d.next_field };
}

impl Draft {
    /// These classes, class 1 first.
    pub fn of(alloc: Global, classes: Classes, next_field: u32) -> Result<Draft, AllocError>
        ensures { IfOk result (λ d. d ≡ schema_of classes next_field) }
    {
        let classes = Sequence::of(alloc, classes)?;
        Ok(Draft {
            classes,
            next_field,
        })
    }

    /// With one class more behind the others, which are shared.
    pub fn with_class(
        &self,
        alloc: Global,
        class: ClassDef,
        next_field: u32,
    ) -> Result<Draft, AllocError>
        ensures { IfOk result (λ d. d ≡ schema_of (self.now.classes ++ class ∷ []) next_field) }
    {
        let classes = self.classes.with_last(alloc, class)?;
        Ok(Draft {
            classes,
            next_field,
        })
    }

    /// With this class in place of the one of this number; the others are shared.
    pub fn with_class_at(
        &self,
        alloc: Global,
        number: u32,
        class: ClassDef,
        next_field: u32,
    ) -> Result<Draft, AllocError>
        requires some { 1 ≤ number }
        requires there { number ≤ length self.now.classes }
        ensures { IfOk result (λ d. d ≡ schema_of (slice_set self.now.classes (number - 1) class) next_field) }
    {
        let classes = self.classes.with_at(alloc, number as usize - 1, class)?;
        Ok(Draft {
            classes,
            next_field,
        })
    }

    /// No classes.
    pub fn empty() -> Draft
        ensures { result ≡ empty_schema }
    {
        Draft {
            classes: Sequence::new(),
            next_field: 1,
        }
    }

    /// How many classes there are.
    pub fn len(&self) -> usize
        ensures { result ≡ length self.now.classes }
    {
        self.classes.len()
    }

    /// The id that the next new field gets.
    pub fn next_field(&self) -> u32
        ensures { result ≡ self.now.next_field }
    {
        self.next_field
    }

    /// The class of this number.
    #[tactic(auto, using(crate::proofs::Sharing::class_found))]
    pub fn class(&self, number: u32) -> Option<&ClassDef>
        ensures { option_copied result ≡ class_at self.now number }
    {
        if number == 0 {
            return None;
        }
        self.classes.get(number as usize - 1)
    }

    /// The number of the class's parent, 0 where it has none or isn't there.
    pub fn parent(&self, number: u32) -> u32
        ensures { result ≡ parent_of (class_at self.now number) }
    {
        match self.class(number) {
            Some(class) => class.parent,
            None => 0,
        }
    }

    /// The class in this place.
    #[tactic(auto, using(crate::proofs::Sharing::class_placed, crate::proofs::Sharing::class_missing))]
    fn class_in(&self, place: usize) -> &ClassDef
        requires { place < length self.now.classes }
        ensures { result.now ≡ get_or self.now.classes place result.now }
    {
        match self.classes.get(place) {
            Some(class) => class,
            None => unreachable!(),
        }
    }

    /// The number of each class by its name, where no two have one name.
    pub fn numbers(&self, alloc: Global) -> Result<Option<Table<u32>>, AllocError>
        requires { length self.now.classes ≤ 65535 }
        ensures distinct { IfOk result (λ o. is_some o ≡ has_distinct_classes self.now) }
        ensures names { IfOk result (λ o. IfSome o (λ m. IsTable m self.now.classes)) }
    {
        let mut numbers = Table::new();
        for place in (0..self.len()).rev() {
            let class = self.class_in(place);
            let name = class.name.as_slice();
            if numbers.get(name).is_some() {
                return Ok(None);
            }
            numbers = numbers.with(alloc, name, place as u32 + 1)?;
        }
        Ok(Some(numbers))
    }

    /// Whether each class has at most 32 ancestors and 255 fields, of which no two have one name.
    #[tactic(auto, using(crate::proofs::Parting::lines_turn))]
    pub fn lines_keep_rules(&self, alloc: Global) -> Result<bool, AllocError>
        requires parents { has_earlier_parents self.now ≡ true }
        requires few { length self.now.classes ≤ 65535 }
        ensures { IfOk result (λ b. b ≡ lines_keep self.now) }
    {
        for place in 0..self.len() {
            if !self.line_keeps_rules(alloc, place as u32 + 1)? {
                return Ok(false);
            }
        }
        Ok(true)
    }

    #[tactic(auto, using(crate::proofs::Parting::line_kept))]
    fn line_keeps_rules(&self, alloc: Global, number: u32) -> Result<bool, AllocError>
        requires parents { has_earlier_parents self.now ≡ true }
        requires some { 1 ≤ number }
        requires there { number ≤ length self.now.classes }
        ensures { IfOk result (λ b. b ≡ line_keeps self.now number) }
    {
        if self.ancestor_count(number) > ANCESTOR_LIMIT {
            return Ok(false);
        }
        let fields = self.fields_of(alloc, number)?;
        if fields.len() > FIELD_LIMIT {
            return Ok(false);
        }
        let distinct = have_distinct_names(alloc, fields.as_slice())?;
        Ok(distinct)
    }

    // ---- a class and what is above it

    /// Whether class `a` is class `b` or below it.
    #[tactic(auto, using(crate::proofs::Ancestry::parent_smaller, crate::proofs::Ancestry::sub_other, crate::proofs::Ancestry::sub_self, crate::proofs::Ancestry::sub_none))]
    pub fn is_sub(&self, a: u32, b: u32) -> bool
        requires parents { has_earlier_parents self.now ≡ true }
        requires some { 1 ≤ b }
        ensures { result ≡ is_sub self.now a b }
    {
        let mut class = a;
        while class != 0 && class != b {
            class = self.parent(class);
        }
        class != 0
    }

    /// How many ancestors the class has.
    #[tactic(auto, using(crate::proofs::Ancestry::parent_smaller, crate::proofs::Ancestry::ancestors_counted))]
    pub fn ancestor_count(&self, class: u32) -> usize
        requires parents { has_earlier_parents self.now ≡ true }
        requires some { 1 ≤ class }
        requires there { class ≤ length self.now.classes }
        ensures { result ≡ length (ancestors self.now class) }
    {
        let mut count: usize = 0;
        let mut above = self.parent(class);
        while above != 0 {
            count += 1;
            above = self.parent(above);
        }
        count
    }

    // ---- the fields of a class

    /// The current fields of the class's ancestors, and then those of the class.
    pub fn fields_of<'a>(
        &'a self,
        alloc: Global,
        class: u32,
    ) -> Result<Vec<&'a FieldDef>, AllocError>
        requires { has_earlier_parents self.now ≡ true }
        ensures { IfOk result (λ v. map (λ f. f.now) v.items ≡ fields_of self.now class) }
    {
        let mut fields = Vec::new(alloc);
        self.push_fields(class, &mut fields)?;
        Ok(fields)
    }

    #[tactic(auto, using(crate::proofs::Ancestry::parent_smaller, crate::proofs::Ancestry::fields_pushed, crate::proofs::Ancestry::none_pushed))]
    fn push_fields<'a>(
        &'a self,
        class: u32,
        fields: &mut Vec<&'a FieldDef>,
    ) -> Result<(), AllocError>
        requires { has_earlier_parents self.now ≡ true }
        ensures { OnOk result (map (λ f. f.now) fields.new.items ≡ map (λ f. f.now) fields.old.items ++ fields_of self.now class) }
    {
        if class == 0 {
            return Ok(());
        }
        self.push_fields(self.parent(class), fields)?;
        push_current(self.own_fields(class), fields)?;
        Ok(())
    }

    /// The own fields of the class, past ones too; none where it isn't there.
    pub fn own_fields(&self, class: u32) -> &[FieldDef]
        ensures { result.now ≡ stored_fields (class_at self.now class) }
    {
        match self.class(class) {
            Some(class) => class.fields.as_slice(),
            None => &[],
        }
    }

    /// The first field of this name, of the ancestors' current fields and then of the class's.
    #[tactic(auto, using(crate::proofs::Ancestry::parent_smaller, crate::proofs::Ancestry::named_step, crate::proofs::Ancestry::no_field_named))]
    pub fn field_named(&self, class: u32, name: &[u8]) -> Option<&FieldDef>
        requires { has_earlier_parents self.now ≡ true }
        ensures { option_copied result ≡ field_named self.now class name.now }
    {
        if class == 0 {
            return None;
        }
        match self.field_named(self.parent(class), name) {
            Some(field) => Some(field),
            None => current_named(self.own_fields(class), name),
        }
    }

    /// Whether an object of the class may have the entry.
    #[tactic(auto, using(crate::proofs::Ancestry::parent_smaller, crate::proofs::Ancestry::known_step, crate::proofs::Ancestry::known_none))]
    pub fn is_known(&self, class: u32, entry: &Entry) -> bool
        requires { has_earlier_parents self.now ≡ true }
        ensures { result ≡ is_known self.now class entry.now }
    {
        let mut at = class;
        while at != 0 {
            if has_field_of(self.own_fields(at), entry) {
                return true;
            }
            at = self.parent(at);
        }
        false
    }
}
