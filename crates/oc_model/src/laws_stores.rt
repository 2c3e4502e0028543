//! Laws of the rules of a store.

ghost use Rattle.std.specs.Prelude.{ℕ, ◌≤◌, ◌<◌, nat_le, List, flat_map, IsTrue};
ghost use Rattle.std.specs.List.{list_all};
ghost use Rattle.oc_model.specs.declared.schema.FieldDef.{FieldDef};
ghost use Rattle.oc_model.specs.declared.value.Entry.{Entry};
ghost use Rattle.oc_model.specs.declared.value.Rec.{Rec};
ghost use Rattle.oc_model.specs.Lists.{IsOneOf};
ghost use Rattle.oc_model.specs.Maps.{with_at};
ghost use Rattle.oc_model.specs.References.{refs_in};
ghost use Rattle.oc_model.specs.SchemaRules.{keeps_rules};
ghost use Rattle.oc_model.specs.Schemas.{Schema, fields_of};
ghost use Rattle.oc_model.specs.Spelling.{IsSpellable};
ghost use Rattle.oc_model.specs.StoreRules.{KeepsStore, Suits};
ghost use Rattle.oc_model.specs.Stores.{Store, empty_store, record_len, value_in, written};
ghost use Rattle.oc_model.specs.Values.{fits};

/// The store of a new container keeps the rules.
pub fn empty_store_keeps_rules()
    ensures { (first : ℕ) → 1 ≤ first → first ≤ 2147483647 → KeepsStore (empty_store first) }
{}

/// What is written for an object suits the schema, where its old record did and each current field has a value of its kind.
pub fn written_record_suits()
    ensures { (s : Schema) (c : ℕ) (values old : List Entry) → Suits s (record { class = c; entries = old })
        → ((f : FieldDef) → IsOneOf f (fields_of s c) → IsTrue (fits f.kind (value_in values f.id f.kind)))
        → Suits s (record { class = c; entries = written s c values old }) }
{}

/// A store keeps the rules when a record that suits is put in under a number below the next one, which doesn't get smaller.
pub fn store_with_record_keeps_rules()
    ensures { (s : Store) (n next : ℕ) (r : Rec)
        → KeepsStore s → Suits s.schema r → 1 ≤ n → n < next → s.next ≤ next → next ≤ 2147483647
        → KeepsStore (record { schema = s.schema; next = next; records = with_at s.records n r }) }
{}

/// A record that suits a schema with its rules kept can be spelled, where it takes at most 262,144 bytes and its references are at most 2,147,483,646.
pub fn suited_record_is_spellable()
    ensures { (s : Schema) (r : Rec) → IsTrue (keeps_rules s) → Suits s r → record_len r ≤ 262144
        → IsTrue (list_all (λ n. nat_le n 2147483646) (flat_map (λ (e : Entry). refs_in e.value) r.entries)) → IsSpellable r }
{}
