//! The line `query` for all objects of a class.

ghost use Rattle.std.specs.Prelude.{◌≡◌, ◌≤◌, ◌+◌, ◌++◌, ◌∷◌, [], ℕ, true, false, Option, None, Some, filter_map, is_some, option_to_list, if◌then◌else◌, IsTrue, IsErrOf, IfOk, OnOk};
ghost use Rattle.oc_host.specs.Counts.{Rose};
ghost use Rattle.oc_host.specs.Disk.{Looks};
ghost use Rattle.oc_layout.specs.declared.cells.Space.{Space as SpaceOf};
ghost use Rattle.oc_layout.specs.declared.cells.Space.TheVariants.{Objects};
ghost use Rattle.oc_model.specs.declared.value.Rec.{Rec as RecOf};
ghost use Rattle.oc_model.specs.Lists.{IsOneOf};
ghost use Rattle.oc_model.specs.Maps.{is_in};
ghost use Rattle.oc_model.specs.Schemas.{class_at, is_sub};
ghost use Rattle.oc_model.specs.States.{State};
ghost use Rattle.oc_model.specs.Stores.{Store as StoreOf};
ghost use Rattle.oc_machine.specs.Outcomes.{settled};
ghost use Rattle.oc_machine.specs.QueryLines.{query_step};
ghost use Rattle.oc_machine.specs.Runs.{is_full};
ghost use Rattle.oc_machine.specs.Showing.{stored_line};
ghost use Rattle.oc_chunks.specs.Chunks.{joined};
ghost use Rattle.oc_slots.specs.declared.slot.Side.TheVariants.{Session};
ghost use Rattle.oc_slots.specs.Stores.{length_on, session};
ghost use Rattle.oc_store.specs.Filed.{class_on, Agrees, IsRead, Shows};
ghost use Rattle.oc_store.specs.Reindexing.{objects_len};
ghost use Rattle.oc_store.specs.Stands.{object_slot};
ghost use Rattle.oc_container.specs.declared.fault.Fault.TheVariants as line_fault;
ghost use Rattle.oc_container.specs.Asked.{objects_below as below, objects_named};
ghost use Rattle.oc_container.specs.Contained.{keeping, Holds, Meets};

use crate::container::Container;
use crate::fault::Fault;
use crate::showing::record_line;
use oc_host::Host;
use oc_model::answer::{Answer, ObjectLine, ObjectLines, Word};
use oc_model::value::Txt;
use oc_schema::Schema;
use oc_store::{Side, Store};
use std::alloc::{AllocError, Global};

impl Container {
    /// Finds the objects of the class and of the classes below it, as the session has them, by number. A name that isn't a
    /// class's is refused.
    ///
    /// Each of these objects is fetched once, and what was fetched last is kept in memory; nothing else changes. `Damaged` tells
    /// one of them whose record in the session is damaged.
    pub fn query<H: Host>(&mut self, host: &mut H, class: &Txt) -> Result<Answer, Fault>
        requires { IsTrue H.tells → Agrees self.old.store (H.disk host.old) }
        ensures step { IfOk result (λ a. IsTrue H.tells → (m : State) → Holds self.old (H.disk host.old) m →
            Meets self.new (H.disk host.new) a (settled m (query_step m class.now None []))) }
        ensures room { IfOk result (λ a. is_full (Some a) ≡ false) }
        ensures agrees { IsTrue H.tells → Agrees self.new.store (H.disk host.new) }
        ensures holds { IsTrue H.tells → (m : State) → Holds self.old (H.disk host.old) m → Holds self.new (H.disk host.new) m }
        ensures unchanged { self.new ≡ record self.old { store = keeping ((self.new.store).slots).cached self.old.store } }
        ensures damaged { (space : SpaceOf) (n : ℕ) → IsErrOf result (line_fault.Damaged space n) → (space ≡ Objects)
            × IsOneOf n (objects_named self.old.store class.now) × (IsTrue H.tells → (found : Option RecOf) →
            IsRead ((self.old.store).session).schema (class_on Session self.old.store n) (session (self.old.store).slots (H.disk host.old) (object_slot n)) found → ⊥) }
        ensures looks { IsTrue H.tells → Looks (H.disk host.old) (H.disk host.new) }
        ensures later { H.faults host.old ≤ H.faults host.new }
        ensures cause { IsErrOf result line_fault.Host → Rose (H.faults host.old) (H.faults host.new) }
        ensures taken { H.taken host.new ≤ H.taken host.old + objects_len (self.old.store).slots (objects_named self.old.store class.now) }
    {
        let Some(class) = self
            .store
            .schema(Side::Session)
            .class_named(class.as_slice())
        else {
            return Ok(Answer::Refused(Word::Class));
        };
        let numbers = objects_below(self.alloc, &self.store, class)?;
        let lines = stored_lines(self.alloc, &mut self.store, host, &numbers)?;
        Ok(Answer::Found(lines))
    }
}

// The objects of the session that are of the class or of one below it, by number.
fn objects_below(alloc: Global, store: &Store, class: u32) -> Result<Vec<u32>, AllocError>
    requires { is_some (class_at ((store.now).session).schema class) ≡ true }
    ensures { IfOk result (λ v. v.items ≡ below ((store.now).session).schema class (joined (((store.now).lists).extents).chunks)) }
{
    let classes = classes_below(alloc, store.schema(Side::Session), class)?;
    store.indexes().extents().of(alloc, &classes)
}

// The class and those below it.
fn classes_below(alloc: Global, schema: &Schema, class: u32) -> Result<Vec<u32>, AllocError>
    requires { is_some (class_at schema.now class) ≡ true }
    ensures { IfOk result (λ v. (c : ℕ) → is_in v.items c ≡ is_sub schema.now c class) }
{
    schema.keeps_rules();
    let mut classes = Vec::new(alloc);
    for place in 0..schema.len() {
        let other = place + 1;
        push_if(&mut classes, other, schema.is_sub(other, class))?;
    }
    Ok(classes)
}

// Adds the class, if it is one of those.
fn push_if(classes: &mut Vec<u32>, class: u32, is_below: bool) -> Result<(), AllocError>
    ensures { OnOk result (classes.new.items ≡ classes.old.items ++ (if is_below then class ∷ [] else [])) }
{
    if is_below {
        classes.push(class)?;
    }
    Ok(())
}

// The lines of those of these objects that the session has.
fn stored_lines<H: Host>(
    alloc: Global,
    store: &mut Store,
    host: &mut H,
    numbers: &[u32],
) -> Result<ObjectLines, Fault>
    requires agrees { IsTrue H.tells → Agrees store.old (H.disk host.old) }
    ensures lines { IfOk result (λ ls. IsTrue H.tells → (c s : StoreOf) → Shows store.old (H.disk host.old) c s → ls ≡ filter_map (stored_line s) numbers.now) }
    ensures agrees { IsTrue H.tells → Agrees store.new (H.disk host.new) }
    ensures shows { IsTrue H.tells → (c s : StoreOf) → Shows store.old (H.disk host.old) c s → Shows store.new (H.disk host.new) c s }
    ensures same { store.new ≡ keeping ((store.new).slots).cached store.old }
    ensures damaged { (space : SpaceOf) (n : ℕ) → IsErrOf result (line_fault.Damaged space n) → (space ≡ Objects) × IsOneOf n numbers.now × (IsTrue H.tells → (found : Option RecOf) →
        IsRead ((store.old).session).schema (class_on Session store.old n) (session (store.old).slots (H.disk host.old) (object_slot n)) found → ⊥) }
    ensures looks { IsTrue H.tells → Looks (H.disk host.old) (H.disk host.new) }
    ensures later { H.faults host.old ≤ H.faults host.new }
    ensures cause { IsErrOf result line_fault.Host → Rose (H.faults host.old) (H.faults host.new) }
    ensures taken { H.taken host.new ≤ H.taken host.old + objects_len (store.old).slots numbers.now }
{
    let mut lines = ObjectLines::new(alloc);
    for number in numbers {
        push_some(&mut lines, object_line(alloc, store, host, *number)?)?;
    }
    Ok(lines)
}

// Adds the line, if there is one.
fn push_some(lines: &mut ObjectLines, line: Option<ObjectLine>) -> Result<(), AllocError>
    ensures { OnOk result (lines.new ≡ lines.old ++ option_to_list line) }
{
    if let Some(line) = line {
        lines.push(line)?;
    }
    Ok(())
}

// The line of the object, if the session has it.
fn object_line<H: Host>(
    alloc: Global,
    store: &mut Store,
    host: &mut H,
    number: u32,
) -> Result<Option<ObjectLine>, Fault>
    requires agrees { IsTrue H.tells → Agrees store.old (H.disk host.old) }
    ensures line { IfOk result (λ l. IsTrue H.tells → (c s : StoreOf) → Shows store.old (H.disk host.old) c s → l ≡ stored_line s number) }
    ensures agrees { IsTrue H.tells → Agrees store.new (H.disk host.new) }
    ensures shows { IsTrue H.tells → (c s : StoreOf) → Shows store.old (H.disk host.old) c s → Shows store.new (H.disk host.new) c s }
    ensures same { store.new ≡ keeping ((store.new).slots).cached store.old }
    ensures damaged { (space : SpaceOf) (n : ℕ) → IsErrOf result (line_fault.Damaged space n) → (space ≡ Objects) × (n ≡ number) × (IsTrue H.tells → (found : Option RecOf) →
        IsRead ((store.old).session).schema (class_on Session store.old n) (session (store.old).slots (H.disk host.old) (object_slot n)) found → ⊥) }
    ensures looks { IsTrue H.tells → Looks (H.disk host.old) (H.disk host.new) }
    ensures later { H.faults host.old ≤ H.faults host.new }
    ensures cause { IsErrOf result line_fault.Host → Rose (H.faults host.old) (H.faults host.new) }
    ensures taken { H.taken host.new ≤ H.taken host.old + length_on Session (store.old).slots (object_slot number) }
{
    let Some(rec) = store.fetch(host, Side::Session, number)? else {
        return Ok(None);
    };
    let line = record_line(alloc, store, number, &rec)?;
    Ok(Some(line))
}
