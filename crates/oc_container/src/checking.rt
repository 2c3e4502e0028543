//! The check of the values that a line gives.

ghost use Rattle.std.specs.Prelude.{◌≡◌, true, is_some, []};
ghost use Rattle.std.specs.List.{list_any};
ghost use Rattle.oc_model.specs.Maps.{same};
ghost use Rattle.oc_model.specs.Schemas.{class_at};
ghost use Rattle.oc_machine.specs.Values.{checked};
ghost use Rattle.oc_container.specs.Givens.{given_checked, names_back, verdict};
ghost use Rattle.oc_container.specs.Outlined.{outlined};

use crate::values::{find_value, fits, unless};
use oc_live::LiveObjects;
use oc_model::answer::Word;
use oc_model::command::Given;
use oc_store::{Side, Store};

/// Checks the values for an object of the class, field by field, and answers the first refusal: the class hasn't the field, the field is
/// given twice, something isn't there, the value doesn't fit.
pub(crate) fn check(
    store: &Store,
    live: &LiveObjects,
    class: u32,
    givens: &[Given],
) -> Result<(), Word>
    requires { is_some (class_at ((store.now).session).schema class) ≡ true }
    ensures { result ≡ verdict (checked (outlined store.now live.now) class [] givens.now) }
{
    for (place, given) in givens.iter().enumerate() {
        check_given(store, live, class, &givens[..place], given)?;
    }
    Ok(())
}

// Checks one value, behind these.
fn check_given(
    store: &Store,
    live: &LiveObjects,
    class: u32,
    earlier: &[Given],
    given: &Given,
) -> Result<(), Word>
    requires { is_some (class_at ((store.now).session).schema class) ≡ true }
    ensures { result ≡ given_checked (outlined store.now live.now) class (names_back earlier.now) given.now }
{
    let name = given.name.as_slice();
    let Some(field) = store.schema(Side::Session).field_named(class, name) else {
        return Err(Word::Field);
    };
    unless(!is_named(earlier, name), Word::Exists)?;
    find_value(store, live, &given.value)?;
    unless(fits(field.kind, &given.value), Word::Kind)
}

// Whether a value is given to the field of this name.
fn is_named(givens: &[Given], name: &[u8]) -> bool
    ensures { result ≡ list_any (λ g. same name.now g.name) givens.now }
{
    for given in givens {
        if is_same(name, given.name.as_slice()) {
            return true;
        }
    }
    false
}

fn is_same(a: &[u8], b: &[u8]) -> bool
    ensures { result ≡ same a.now b.now }
{
    a == b
}
