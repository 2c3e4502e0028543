//! Which kinds and which values the program has by now.

ghost use Rattle.std.specs.Prelude.{◌≡◌};
ghost use Rattle.std.specs.List.{list_all};
ghost use Rattle.oc_machine.specs.Runs.{is_built_kind, is_built_value};

use oc_model::command::{Decl, Given, Single, ValueText};
use oc_model::value::{Base, Kind};

/// Whether each declared field is of a kind that the program has.
pub fn are_built_kinds(decls: &[Decl]) -> bool
    ensures { result ≡ list_all (λ d. is_built_kind d.kind) decls.now }
{
    decls.iter().all(|decl| is_built_kind(decl.kind))
}

/// Whether each given value is one that the program has.
pub fn are_built_values(givens: &[Given]) -> bool
    ensures { result ≡ list_all (λ g. is_built_value g.value) givens.now }
{
    givens.iter().all(|given| is_built_value(&given.value))
}

fn is_built_kind(kind: Kind) -> bool
    ensures { result ≡ is_built_kind kind }
{
    matches!(kind, Kind::One(Base::I32 | Base::Text))
}

fn is_built_value(value: &ValueText) -> bool
    ensures { result ≡ is_built_value value.now }
{
    match value {
        ValueText::One(Single::Null | Single::Int(_) | Single::Text(_)) => true,
        ValueText::One(_) | ValueText::Many(_) => false,
    }
}
