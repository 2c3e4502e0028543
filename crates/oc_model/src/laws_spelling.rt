//! Laws of the bytes of records, of the entries of lists, and of the catalog.

ghost use Rattle.std.specs.Prelude.{ℕ, ◌≡◌, ◌&&◌, List, length, IsTrue};
ghost use Rattle.std.specs.List.{list_all};
ghost use Rattle.oc_model.specs.declared.value.Base.{Base};
ghost use Rattle.oc_model.specs.declared.value.Kind.{Kind};
ghost use Rattle.oc_model.specs.declared.value.Rec.{Rec};
ghost use Rattle.oc_model.specs.Schemas.{Schema};
ghost use Rattle.oc_model.specs.Stores.{record_len};
ghost use Rattle.oc_model.specs.Spelling.{catalog_bytes, entry_fits, extent_bytes, index_bytes, is_extent, is_indexed, is_small, record_bytes, segment_bytes, value_bytes, IsCatalog, IsSegment, IsSpellable, Tells};
ghost use Rattle.oc_model.specs.Values.{fits};

/// The length that is reckoned for a record is the number of its bytes, where its values are of their kinds.
pub fn record_len_is_exact()
    ensures exact { (r : Rec) → IsTrue (list_all entry_fits r.entries) → length (record_bytes r) ≡ record_len r }
{}

/// The bytes of a small value, where its kind is known, and those of a record that a file can hold tell it, whatever stands behind them. So two such records of the same bytes are one.
pub fn record_bytes_tell()
    ensures values { (k : Kind) → Tells (λ v. IsTrue (fits k v && is_small v)) (value_bytes k) }
    ensures records { Tells IsSpellable record_bytes }
    ensures same { (r s : Rec) → IsSpellable r → IsSpellable s → record_bytes r ≡ record_bytes s → r ≡ s }
{}

/// The bytes of a segment that a file can hold tell its entries: those of the list of all objects, and those of the list of a field, where the field's base kind is known.
pub fn segment_bytes_tell()
    ensures extents { Tells (IsSegment is_extent) (segment_bytes (λ e. extent_bytes e.0 e.1)) }
    ensures index { (b : Base) → Tells (IsSegment (is_indexed b)) (segment_bytes (λ e. index_bytes b e.0 e.1)) }
{}

/// The bytes of a catalog that a file can hold tell the next number, the schema and the lists, whatever stands behind them. So two such catalogs of the same bytes are one.
pub fn catalog_bytes_tell()
    ensures catalogs { Tells (λ (c : ℕ × Schema × List (ℕ × List ℕ)). IsCatalog c.0 c.1 c.2) (λ c. catalog_bytes c.0 c.1 c.2) }
    ensures same { (m n : ℕ) (s t : Schema) (ls ks : List (ℕ × List ℕ))
        → IsCatalog m s ls → IsCatalog n t ks → catalog_bytes m s ls ≡ catalog_bytes n t ks → (m ≡ n) × (s ≡ t) × (ls ≡ ks) }
{}
