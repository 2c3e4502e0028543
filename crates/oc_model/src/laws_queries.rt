//! Laws of queries and of their order.

ghost use Rattle.std.specs.Prelude.{ℕ, ◌≡◌, ◌↔◌, ◌&&◌, ◌==◌, not, true, List, [], ◌++◌, filter, IsPermutation, IsSorted, IsTrue};
ghost use Rattle.std.specs.Cmp.{IsTotalOrder};
ghost use Rattle.std.specs.FinMap.{is_sorted};
ghost use Rattle.std.specs.List.{list_all, list_any};
ghost use Rattle.std.specs.Ordering.{nat_cmp};
ghost use Rattle.std.specs.declared.cmp.Ordering.TheVariants.{Equal};
ghost use Rattle.oc_model.specs.declared.query.Criterion.{Criterion};
ghost use Rattle.oc_model.specs.declared.query.Expr.{Expr};
ghost use Rattle.oc_model.specs.declared.query.Expr.TheVariants.{All, Not, And, Or, Test, Null, Is, Inside};
ghost use Rattle.oc_model.specs.declared.query.Op.{Op};
ghost use Rattle.oc_model.specs.declared.value.Atom.{Atom};
ghost use Rattle.oc_model.specs.Lists.{sorted};
ghost use Rattle.oc_model.specs.Maps.{Text, keys};
ghost use Rattle.oc_model.specs.Orders.{is_null};
ghost use Rattle.oc_model.specs.Queries.{answer, begins_with, closes_with, criteria_cmp, found, has_part, is_of, meets, passes, ref_meets, values};
ghost use Rattle.oc_model.specs.Stores.{Store};

/// What an object must be to meet an expression, by the cases of the expression.
pub fn meets_by_cases()
    ensures all { (s : Store) (n : ℕ) → meets s All n ≡ true }
    ensures not { (s : Store) (e : Expr) (n : ℕ) → meets s (Not e) n ≡ not (meets s e n) }
    ensures and { (s : Store) (es : List Expr) (n : ℕ) → meets s (And es) n ≡ list_all (λ e. meets s e n) es }
    ensures or { (s : Store) (es : List Expr) (n : ℕ) → meets s (Or es) n ≡ list_any (λ e. meets s e n) es }
    ensures test { (s : Store) (path : List Text) (o : Op) (literal : Atom) (n : ℕ)
        → meets s (Test path o literal) n ≡ list_any (passes o literal) (values s path n) }
    ensures null { (s : Store) (path : List Text) (n : ℕ) → meets s (Null path) n ≡ list_any is_null (values s path n) }
    ensures is { (s : Store) (path : List Text) (m n : ℕ)
        → meets s (Is path m) n ≡ list_any (ref_meets (λ k. k == m)) (values s path n) }
    ensures inside { (s : Store) (path : List Text) (c : ℕ) (e : Expr) (n : ℕ)
        → meets s (Inside path c e) n ≡ list_any (ref_meets (λ m. is_of s c m && meets s e m)) (values s path n) }
{}

/// What a text begins with, ends with and contains, by what stands before the part and behind it.
pub fn text_tests_are_by_parts()
    ensures starts { (part text : Text) → IsTrue (begins_with part text) ↔ ((rest : Text) × (text ≡ part ++ rest)) }
    ensures ends { (part text : Text) → IsTrue (closes_with part text) ↔ ((front : Text) × (text ≡ front ++ part)) }
    ensures contains { (part text : Text)
        → IsTrue (has_part part text) ↔ ((front : Text) × (rest : Text) × (text ≡ front ++ (part ++ rest))) }
{}

/// The order by criteria is total, and it tells numbers apart.
pub fn order_by_criteria_is_total()
    ensures total { (s : Store) (cs : List Criterion) → IsTotalOrder (criteria_cmp s cs) }
    ensures apart { (s : Store) (cs : List Criterion) (n m : ℕ) → criteria_cmp s cs n m ≡ Equal → n ≡ m }
{}

/// What a sort by the criteria leaves is the sorted list.
pub fn sort_is_sorted()
    ensures { (s : Store) (cs : List Criterion) (xs ys : List ℕ)
        → IsPermutation xs ys → IsSorted (criteria_cmp s cs) ys → ys ≡ sorted (criteria_cmp s cs) xs }
{}

/// The answer has the numbers that were found, in the order of the criteria. It is the one such list.
pub fn answer_is_in_order()
    ensures found { (s : Store) (c : ℕ) (e : Expr) (cs : List Criterion) → IsPermutation (found s c e) (answer s c e cs) }
    ensures order { (s : Store) (c : ℕ) (e : Expr) (cs : List Criterion) → IsSorted (criteria_cmp s cs) (answer s c e cs) }
    ensures only { (s : Store) (c : ℕ) (e : Expr) (cs : List Criterion) (ys : List ℕ)
        → IsPermutation (found s c e) ys → IsSorted (criteria_cmp s cs) ys → ys ≡ answer s c e cs }
{}

/// Without an expression and criteria, a query gives the objects of the class by number, where the records stand by number.
pub fn answer_by_class()
    ensures { (s : Store) (c : ℕ)
        → IsTrue (is_sorted nat_cmp s.records) → answer s c All [] ≡ filter (is_of s c) (keys s.records) }
{}
