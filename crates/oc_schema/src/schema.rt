//! Schemas.

ghost use Rattle.std.specs.Prelude.{◌≡◌, ◌≤◌, ◌↔◌, ◌-◌, ◌++◌, ◌∷◌, [], slice_set, length, map, true, Some, None, is_some, IsTrue, IfOk, IfSome, if◌then◌else◌};
ghost use Rattle.std.specs.List.{list_all};
ghost use Rattle.std.specs.Option.{option_copied, option_map};
ghost use Rattle.oc_model.specs.Schemas.{empty_schema, class_named, class_at, fields_of, field_named, is_sub};
ghost use Rattle.oc_model.specs.SchemaRules.{keeps_rules};
ghost use Rattle.oc_model.specs.SchemaSteps.{stored_fields, past_field};
ghost use Rattle.oc_model.specs.StoreRules.{is_known, Suits};
ghost use Rattle.oc_schema.specs.Drafts.{schema_of, own_rules_keep, suits_by_parts, IsRenamed};
ghost use Rattle.oc_shared.specs.Tables.{value_at};

use crate::class_rules::{all_keep_rules, is_same};
use crate::distinct::have_distinct_ids;
use crate::draft::Draft;
use crate::entries::{all_fit, are_by_id};
use crate::fields::{copies, latest_past};
use oc_model::schema::{ClassDef, FieldDef};
use oc_model::value::{Entry, Kind, Rec};
use oc_shared::Table;
use sqlite_items::Items;
use std::alloc::{AllocError, Global};
use std::marker::Model;

/// The classes of a schema, class 1 first.
pub type Classes = Items<ClassDef>;

/// The most classes of a schema.
const CLASS_LIMIT: usize = 65_535;

/// Classes and the id that the next new field gets, which keep every rule of the catalog.
#[derive(Drop)]
pub struct Schema {
    draft: Draft,
    /// The number of each class by its name.
    numbers: Table<u32>,
}

impl Model for Schema {
    ghost use Rattle.oc_model.specs.Schemas.{Schema as Catalog};

    ghost Value = { Catalog };

    ghost use Rattle.oc_schema.specs.Drafts.{IsKept};

    ghost view = { λ s. s.draft };

    ghost invariant = { λ s. IsKept s.draft s.numbers };
}

impl Schema {
    /// The schema of these classes and the id that the next new field gets, or `None` where they break a rule.
    pub fn of(
        alloc: Global,
        classes: Classes,
        next_field: u32,
    ) -> Result<Option<Schema>, AllocError>
        ensures { IfOk result (λ o. o ≡ (if keeps_rules (schema_of classes next_field) then Some (schema_of classes next_field) else None)) }
    {
        if !own_rules_hold(alloc, classes.as_slice(), next_field)? {
            return Ok(None);
        }
        let draft = Draft::of(alloc, classes, next_field)?;
        if !draft.lines_keep_rules(alloc)? {
            return Ok(None);
        }
        match draft.numbers(alloc)? {
            Some(numbers) => Ok(Some(Schema { draft, numbers })),
            None => Ok(None),
        }
    }

    /// The schema without classes.
    pub fn empty(alloc: Global) -> Schema
        ensures { result ≡ empty_schema }
    {
        Schema {
            draft: Draft::empty(),
            numbers: Table::new(),
        }
    }

    /// With one class more behind the others, and this next field id, which keep the rules. The other classes are shared.
    pub fn with_class(
        &self,
        alloc: Global,
        class: ClassDef,
        next_field: u32,
    ) -> Result<Schema, AllocError>
        requires { keeps_rules (schema_of (self.now.classes ++ class ∷ []) next_field) ≡ true }
        ensures { IfOk result (λ s. s ≡ schema_of (self.now.classes ++ class ∷ []) next_field) }
    {
        let number = self.draft.len() as u32 + 1;
        let numbers = self.numbers.with(alloc, class.name.as_slice(), number)?;
        let draft = self.draft.with_class(alloc, class, next_field)?;
        Ok(Schema { draft, numbers })
    }

    /// With this class in place of the one of this number, and this next field id, which keep the rules. The other classes are shared.
    #[tactic(auto, using(crate::proofs::Parting::class_within))]
    pub fn with_class_at(
        &self,
        alloc: Global,
        number: u32,
        class: ClassDef,
        next_field: u32,
    ) -> Result<Schema, AllocError>
        requires there { is_some (class_at self.now number) ≡ true }
        requires rules { keeps_rules (schema_of (slice_set self.now.classes (number - 1) class) next_field) ≡ true }
        ensures { IfOk result (λ s. s ≡ schema_of (slice_set self.now.classes (number - 1) class) next_field) }
    {
        let Some(old) = self.draft.class(number) else {
            unreachable!()
        };
        let numbers = renamed(
            alloc,
            &self.numbers,
            number,
            old.name.as_slice(),
            class.name.as_slice(),
        )?;
        let draft = self.draft.with_class_at(alloc, number, class, next_field)?;
        Ok(Schema { draft, numbers })
    }

    /// Every schema keeps the rules.
    pub fn keeps_rules(&self)
        ensures { keeps_rules self.now ≡ true }
    {
        let _ = &self.draft;
    }

    /// How many classes there are.
    #[tactic(auto, using(crate::proofs::Parting::few_classes))]
    pub fn len(&self) -> u32
        ensures { result ≡ length self.now.classes }
    {
        self.draft.len() as u32
    }

    /// The id that the next new field gets.
    pub fn next_field(&self) -> u32
        ensures { result ≡ self.now.next_field }
    {
        self.draft.next_field()
    }

    /// The number of the class of this name.
    pub fn class_named(&self, name: &[u8]) -> Option<u32>
        ensures value { result ≡ class_named self.now name.now }
        ensures there { IfSome result (λ n. is_some (class_at self.now n) ≡ true) }
    {
        self.numbers.get(name).copied()
    }

    /// The class of this number.
    pub fn class(&self, number: u32) -> Option<&ClassDef>
        ensures { option_copied result ≡ class_at self.now number }
    {
        self.draft.class(number)
    }

    /// Copies of all current fields of an object of this class: those of the ancestors, and then the class's own.
    #[tactic(auto, using(crate::proofs::Parting::earlier_parents))]
    pub fn fields_of(&self, alloc: Global, class: u32) -> Result<Vec<FieldDef>, AllocError>
        requires { is_some (class_at self.now class) ≡ true }
        ensures { IfOk result (λ v. v.items ≡ fields_of self.now class) }
    {
        let fields = self.draft.fields_of(alloc, class)?;
        let copies = copies(alloc, fields.as_slice())?;
        Ok(copies)
    }

    /// The field of this name that an object of this class has.
    #[tactic(auto, using(crate::proofs::Parting::earlier_parents))]
    pub fn field_named(&self, class: u32, name: &[u8]) -> Option<&FieldDef>
        requires { is_some (class_at self.now class) ≡ true }
        ensures { option_copied result ≡ field_named self.now class name.now }
    {
        self.draft.field_named(class, name)
    }

    /// The id of the class's own past field of this name and kind; where there are several, the greatest.
    pub fn past_field(&self, class: u32, name: &[u8], kind: Kind) -> Option<u32>
        requires { is_some (class_at self.now class) ≡ true }
        ensures { result ≡ option_map (λ f. f.id) (past_field (stored_fields (class_at self.now class)) name.now kind) }
    {
        let field = latest_past(self.draft.own_fields(class), name, kind)?;
        Some(field.id)
    }

    /// Whether class `a` is class `b` or below it.
    #[tactic(auto, using(crate::proofs::Parting::earlier_parents, crate::proofs::Parting::class_there))]
    pub fn is_sub(&self, a: u32, b: u32) -> bool
        requires below { is_some (class_at self.now a) ≡ true }
        requires above { is_some (class_at self.now b) ≡ true }
        ensures { result ≡ is_sub self.now a b }
    {
        self.draft.is_sub(a, b)
    }

    /// Whether the record suits the schema: its class is there, its entries stand by id, and each is that of a field of the class or of an ancestor, past ones too, with a value of the field's kind.
    #[tactic(auto, using(crate::proofs::Parting::suits_told))]
    pub fn suits(&self, rec: &Rec) -> bool
        ensures { IsTrue result ↔ Suits self.now rec.now }
    {
        self.suits_by_parts(rec)
    }

    fn suits_by_parts(&self, rec: &Rec) -> bool
        ensures { result ≡ suits_by_parts self.now rec.now }
    {
        self.class(rec.class).is_some()
            && self.are_known(rec.class, rec.entries.as_slice())
            && all_fit(rec.entries.as_slice())
            && are_by_id(rec.entries.as_slice())
    }

    #[tactic(auto, using(crate::proofs::Parting::earlier_parents))]
    fn are_known(&self, class: u32, entries: &[Entry]) -> bool
        ensures { result ≡ list_all (is_known self.now class) entries.now }
    {
        for entry in entries {
            if !self.draft.is_known(class, entry) {
                return false;
            }
        }
        true
    }
}

/// Whether the rules hold that ask for each class alone, and those on the ids of all fields.
fn own_rules_hold(alloc: Global, classes: &[ClassDef], next_field: u32) -> Result<bool, AllocError>
    ensures { IfOk result (λ b. b ≡ own_rules_keep classes.now next_field) }
{
    if classes.len() > CLASS_LIMIT || next_field == 0 || !all_keep_rules(classes, next_field) {
        return Ok(false);
    }
    let distinct = have_distinct_ids(alloc, classes)?;
    Ok(distinct)
}

/// The numbers by the names, where the class of this number goes by another name than before, or by the same.
#[tactic(auto, using(crate::proofs::Names::kept, crate::proofs::Names::exchanged))]
fn renamed(
    alloc: Global,
    numbers: &Table<u32>,
    number: u32,
    from: &[u8],
    to: &[u8],
) -> Result<Table<u32>, AllocError>
    requires { value_at numbers.now from.now ≡ Some number }
    ensures { IfOk result (IsRenamed numbers.now number from.now to.now) }
{
    if is_same(from, to) {
        let numbers = numbers.share()?;
        return Ok(numbers);
    }
    let others = numbers.without(alloc, from)?;
    let numbers = others.with(alloc, to, number)?;
    Ok(numbers)
}
