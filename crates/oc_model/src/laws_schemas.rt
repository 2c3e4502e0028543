//! Laws of the definitions on schemas.

ghost use Rattle.std.specs.Prelude.{ℕ, ◌≡◌, ◌≤◌, ◌+◌, ◌&&◌, true, false, List, [], Some, None, length, nat_lt, nat_le};
ghost use Rattle.std.specs.List.{list_all, list_any};
ghost use Rattle.oc_model.specs.declared.value.Kind.{Kind};
ghost use Rattle.oc_model.specs.declared.schema.FieldDef.{FieldDef};
ghost use Rattle.oc_model.specs.Schemas.{Schema, fields_of};
ghost use Rattle.oc_model.specs.SchemaEquality.{same_field, differs};
ghost use Rattle.oc_model.specs.SchemaRules.{ancestors, has_earlier_parents, is_within_limits};
ghost use Rattle.oc_model.specs.SchemaSteps.{past_fields, past_field, with_new_class};
ghost use Rattle.oc_model.specs.Maps.{Text};
ghost use Rattle.oc_model.specs.declared.command.Decl.{Decl};

/// Two schemas differ exactly where they aren't equal.
pub fn differs_tells()
    ensures equal { (s t : Schema) → differs s t ≡ false → s ≡ t }
    ensures alike { (s t : Schema) → s ≡ t → differs s t ≡ false }
{}

/// With a new class that has no parent the limits ask for its own fields, for one class more and for its ids alone.
pub fn new_class_limits()
    ensures { (s : Schema) (name : Text) (ds : List Decl) → has_earlier_parents s ≡ true → is_within_limits s ≡ true → is_within_limits (with_new_class s name 0 ds) ≡ (nat_lt (length s.classes) 65535 && nat_le (length ds) 255 && nat_le (s.next_field + length ds) 4294967295) }
{}

/// With a new class, which has a parent or none, the limits ask for one class more, for an ancestor more than the parent has, for the parent's fields and its own, and for its ids.
pub fn new_child_limits()
    ensures { (s : Schema) (name : Text) (p : ℕ) (ds : List Decl)
        → has_earlier_parents s ≡ true → is_within_limits s ≡ true → p ≤ length s.classes
        → is_within_limits (with_new_class s name p ds) ≡ (nat_lt (length s.classes) 65535 && nat_lt (length (ancestors s p)) 32
        && nat_le (length (fields_of s p) + length ds) 255 && nat_le (s.next_field + length ds) 4294967295) }
{}

/// The past field of a name and a kind is one of those, of which none has a greater id. There is none where there are none.
pub fn past_field_is_latest()
    ensures among { (fields : List FieldDef) (name : Text) (k : Kind) (f : FieldDef) → past_field fields name k ≡ Some f → list_any (same_field f) (past_fields fields name k) ≡ true }
    ensures greatest { (fields : List FieldDef) (name : Text) (k : Kind) (f : FieldDef) → past_field fields name k ≡ Some f → list_all (λ g. nat_le g.id f.id) (past_fields fields name k) ≡ true }
    ensures none { (fields : List FieldDef) (name : Text) (k : Kind) → past_field fields name k ≡ None → past_fields fields name k ≡ [] }
{}
