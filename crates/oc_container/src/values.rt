//! The values that a line gives to fields: what has to be there, and whether they fit.

ghost use Rattle.std.specs.Prelude.{◌≡◌, ◌≤◌, map, OnSome};
ghost use Rattle.std.specs.List.{list_all};
ghost use Rattle.oc_model.specs.Refusals.{unless as unless_in};
ghost use Rattle.oc_model.specs.States.{State};
ghost use Rattle.oc_model.specs.Stores.{class_of as class_in};
ghost use Rattle.oc_model.specs.Values.{fits as value_fits, fits_base as atom_fits};
ghost use Rattle.oc_machine.specs.Values.{atom_of as atom_in, null_atom as null_in, single_found as single_in, singles_found as singles_in, value_found as value_in, value_of as value_for};
ghost use Rattle.oc_container.specs.Givens.{is_null as null_written};
ghost use Rattle.oc_container.specs.Outlined.{outlined, session_listed};

use oc_live::LiveObjects;
use oc_model::answer::Word;
use oc_model::command::{Single, ValueText};
use oc_model::value::{Atom, Base, Kind};
use oc_store::{Side, Store};
use oc_value::fits_base;

/// The class of the session's object of this number, or `None` exactly where the session hasn't the object. Only numbers of 32 bits
/// are those of objects.
pub(crate) fn class_of(store: &Store, number: u128) -> Option<u32>
    ensures class { result ≡ class_in (session_listed store.now) number }
    ensures small { OnSome result (number ≤ 4294967295) }
{
    if number <= u128::from(u32::MAX) {
        store.class_of(Side::Session, number as u32)
    } else {
        None
    }
}

/// The refusal, unless the test holds.
pub(crate) fn unless(holds: bool, word: Word) -> Result<(), Word>
    ensures { result ≡ unless_in holds word }
{
    if holds { Ok(()) } else { Err(word) }
}

/// Refuses a value that names nothing: a name has to be bound, a number has to be in the session. Elements are looked at from the left
/// to the right.
pub(crate) fn find_value(store: &Store, live: &LiveObjects, value: &ValueText) -> Result<(), Word>
    ensures { result ≡ value_in (outlined store.now live.now) value.now }
{
    match value {
        ValueText::One(single) => find_single(store, live, single),
        ValueText::Many(singles) => find_singles(store, live, singles.as_slice()),
    }
}

fn find_singles(store: &Store, live: &LiveObjects, singles: &[Single]) -> Result<(), Word>
    ensures { result ≡ singles_in (outlined store.now live.now) singles.now }
{
    for single in singles {
        find_single(store, live, single)?;
    }
    Ok(())
}

fn find_single(store: &Store, live: &LiveObjects, single: &Single) -> Result<(), Word>
    ensures { result ≡ single_in (outlined store.now live.now) single.now }
{
    match single {
        Single::Name(name) => unless(live.handle_named(name).is_some(), Word::Name),
        Single::Num(number) => unless(class_of(store, *number).is_some(), Word::Live),
        Single::Null | Single::Bool(_) | Single::Int(_) | Single::Text(_) => Ok(()),
    }
}

/// Whether the value that is written is of this kind. Null fits texts, references and every array, and a name or a number is a
/// reference, whatever it stands for.
pub(crate) fn fits(kind: Kind, value: &ValueText) -> bool
    ensures { (m : State) → result ≡ value_fits kind (value_for m kind value.now) }
{
    match (kind, value) {
        (Kind::One(base), ValueText::One(single)) => fits_single(base, single),
        (Kind::Many(_), ValueText::One(single)) => is_null(single),
        (Kind::Many(base), ValueText::Many(singles)) => fits_singles(base, singles.as_slice()),
        (Kind::One(_), ValueText::Many(_)) => false,
    }
}

fn fits_singles(base: Base, singles: &[Single]) -> bool
    ensures { (m : State) → result ≡ list_all (atom_fits base) (map (atom_in m base) singles.now) }
{
    for single in singles {
        if !fits_single(base, single) {
            return false;
        }
    }
    true
}

fn fits_single(base: Base, single: &Single) -> bool
    ensures { (m : State) → result ≡ atom_fits base (atom_in m base single.now) }
{
    match single {
        Single::Null => takes_null(base),
        Single::Bool(_) => base == Base::Bool,
        Single::Int(number) => fits_base(base, &Atom::Int(*number)),
        Single::Text(_) => base == Base::Text,
        Single::Name(_) | Single::Num(_) => base == Base::Ref,
    }
}

// Whether null is a single value of the base kind.
fn takes_null(base: Base) -> bool
    ensures { result ≡ atom_fits base (null_in base) }
{
    base == Base::Text || base == Base::Ref
}

fn is_null(single: &Single) -> bool
    ensures { result ≡ null_written single.now }
{
    matches!(single, Single::Null)
}
