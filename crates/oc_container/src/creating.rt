//! A new object in memory, as the lines `new` and `make` begin.

ghost use Rattle.std.specs.Prelude.{◌≡◌, ◌+◌, ◌-◌, ◌^◌, ◌<◌, length, IfOk, OnOk, OnErr};
ghost use Rattle.oc_host.specs.Disk.{Disk};
ghost use Rattle.oc_model.specs.States.{State};
ghost use Rattle.oc_container.specs.Contained.{Holds};
ghost use Rattle.oc_container.specs.Givens.{numbers_named};
ghost use Rattle.oc_container.specs.Made.{after_making, handle_told, new_made};

use crate::checking::check;
use crate::container::Container;
use crate::making::make_given;
use oc_model::answer::Word;
use oc_model::command::Given;
use oc_model::value::Txt;
use oc_store::Side;
use std::alloc::AllocError;

impl Container {
    /// Makes an object of the class in memory, with these values and the defaults elsewhere, and answers its handle, or why it is refused:
    /// the name isn't a class's, or field by field, the class hasn't the field, the field is given twice, a name isn't bound, the session
    /// hasn't a number, or the value doesn't fit.
    ///
    /// What the values name by number gets an inactive object in memory where it had none, in ascending order of number. Nothing is read or
    /// written. After a refusal, and where memory ends, nothing has changed.
    pub fn new_object(
        &mut self,
        class: &Txt,
        givens: &[Given],
    ) -> Result<Result<u64, Word>, AllocError>
        requires room { (self.old.memory).next_handle + length (numbers_named givens.now) < 2 ^ 64 - 1 }
        ensures told { IfOk result (λ told. (disk : Disk) (m : State) → Holds self.old disk m → told ≡ handle_told (new_made m class.now givens.now)) }
        ensures step { OnOk result ((disk : Disk) (m : State) → Holds self.old disk m → Holds self.new disk (after_making m (new_made m class.now givens.now))) }
        ensures store { self.new.store ≡ self.old.store }
        ensures refused { IfOk result (λ told. OnErr told (self.new ≡ self.old)) }
        ensures unchanged { OnErr result (self.new ≡ self.old) }
    {
        let schema = self.store.schema(Side::Session);
        let Some(number) = schema.class_named(class.as_slice()) else {
            return Ok(Err(Word::Class));
        };
        if let Err(word) = check(&self.store, &self.live, number, givens) {
            return Ok(Err(word));
        }
        let handle = make_given(self.alloc, &self.store, &mut self.live, number, givens)?;
        Ok(Ok(handle))
    }
}
