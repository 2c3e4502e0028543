//! Laws of the candidates of a query, in a store that keeps its rules.

ghost use Rattle.std.specs.Prelude.{ℕ, ◌≡◌, filter};
ghost use Rattle.oc_model.specs.declared.query.Expr.{Expr};
ghost use Rattle.oc_model.specs.Candidates.{candidates};
ghost use Rattle.oc_model.specs.Lists.{IsOneOf};
ghost use Rattle.oc_model.specs.Queries.{found, meets};
ghost use Rattle.oc_model.specs.StoreRules.{KeepsStore};
ghost use Rattle.oc_model.specs.Stores.{Store};

/// Each object that a query finds is among the candidates, and those of them that meet the expression are what it finds.
pub fn candidates_suffice()
    ensures among { (s : Store) (c : ℕ) (e : Expr) (n : ℕ) → KeepsStore s → IsOneOf n (found s c e) → IsOneOf n (candidates s c e) }
    ensures kept { (s : Store) (c : ℕ) (e : Expr) → KeepsStore s → filter (meets s e) (candidates s c e) ≡ found s c e }
{}
