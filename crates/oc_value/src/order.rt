ghost use Rattle.std.specs.Prelude.{◌≡◌};
ghost use Rattle.oc_value.specs.Orders.{compare as order_of, rank};

use oc_model::value::Atom;
use std::cmp::Ordering;

/// The order of single values: null, then truth values, numbers, texts and references. Numbers are
/// compared by size whatever their kinds, texts by their bytes. The null text and the null
/// reference are equal.
pub fn compare(a: &Atom, b: &Atom) -> Ordering
    ensures { result ≡ order_of a.now b.now }
{
    match (a, b) {
        (Atom::Bool(x), Atom::Bool(y)) => x.cmp(y),
        (Atom::Int(x), Atom::Int(y)) => x.cmp(y),
        (Atom::Text(Some(x)), Atom::Text(Some(y))) => x.as_slice().cmp(y.as_slice()),
        (Atom::Ref(x), Atom::Ref(y)) => x.cmp(y),
        _ => sort_of(a).cmp(&sort_of(b)),
    }
}

fn sort_of(atom: &Atom) -> u8
    ensures { result ≡ rank atom.now }
{
    match atom {
        Atom::Text(None) | Atom::Ref(0) => 0,
        Atom::Bool(_) => 1,
        Atom::Int(_) => 2,
        Atom::Text(Some(_)) => 3,
        Atom::Ref(_) => 4,
    }
}
