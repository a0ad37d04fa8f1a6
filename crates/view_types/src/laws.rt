//! What the definitions of the order of keys and of sameness mean.

ghost use Rattle.std.specs.Prelude.{◌≡◌, List, true};
ghost use Rattle.std.specs.Cmp.{IsTotalOrder};
ghost use Rattle.std.proofs.lemmas.Map.Lookups.{CmpEqualImpliesEq};
ghost use Rattle.view_types.specs.Keys.{key_order};
ghost use Rattle.view_types.specs.Same.{same_row, same_header as is_same_header};
ghost use Rattle.view_types.specs.declared.shown.HeaderColumn.{HeaderColumn};
ghost use Rattle.view_types.specs.declared.shown.ShownRow.{ShownRow};

/// The laws of the order of keys: it is a total order, and only one key is equal to a key. It does
/// nothing, and its contract is the law.
pub fn key_order_laws()
    ensures total { IsTotalOrder key_order }
    ensures exact { CmpEqualImpliesEq key_order }
{}

/// Rows that are the same are equal, and a row is the same as itself; and likewise for headers. It
/// does nothing, and its contract is the law.
pub fn same_rows_are_equal()
    ensures rows { (a b : ShownRow) → same_row a b ≡ true → a ≡ b }
    ensures itself { (a : ShownRow) → same_row a a ≡ true }
    ensures headers { (a b : List HeaderColumn) → is_same_header a b ≡ true → a ≡ b }
    ensures header_itself { (a : List HeaderColumn) → is_same_header a a ≡ true }
{}
