//! Laws of the order of single values.

ghost use Rattle.std.specs.Prelude.{◌≡◌, ◌↔◌};
ghost use Rattle.std.specs.Cmp.{IsTotalOrder};
ghost use Rattle.std.specs.declared.cmp.Ordering.TheVariants.{Equal};
ghost use Rattle.oc_model.specs.declared.value.Atom.{Atom};
ghost use Rattle.oc_model.specs.Orders.{compare, IsAlike};

/// Any two values can be compared, and the answers agree with each other. Two are equal exactly where they are the same value or null both.
pub fn compare_is_an_order()
    ensures total { IsTotalOrder compare }
    ensures equal { (a b : Atom) → (compare a b ≡ Equal) ↔ IsAlike a b }
{}
