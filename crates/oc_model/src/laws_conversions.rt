//! Laws of conversion.

ghost use Rattle.std.specs.Prelude.{◌≡◌, IsTrue, Some};
ghost use Rattle.oc_model.specs.declared.value.Base.{Base};
ghost use Rattle.oc_model.specs.declared.value.Base.TheVariants.{Text};
ghost use Rattle.oc_model.specs.declared.value.Kind.{Kind};
ghost use Rattle.oc_model.specs.declared.value.Kind.TheVariants.{One};
ghost use Rattle.oc_model.specs.declared.value.Value.{Value};
ghost use Rattle.oc_model.specs.Values.{fits};
ghost use Rattle.oc_model.specs.Conversions.{converted};

/// What a value is converted to is of the kind that is asked for, and a value of this kind stays as it is.
pub fn converted_is_of_the_kind()
    ensures fits { (from to : Kind) (v w : Value) → converted from to v ≡ Some w → IsTrue (fits to w) }
    ensures stays { (k : Kind) (v : Value) → IsTrue (fits k v) → converted k k v ≡ Some v }
{}

/// A value that is converted to a text and back to its kind is what it was.
pub fn converted_to_text_and_back()
    ensures back { (b : Base) (v w : Value) → IsTrue (fits (One b) v) → converted (One b) (One Text) v ≡ Some w → converted (One Text) (One b) w ≡ Some v }
{}
