ghost use Rattle.std.specs.Prelude.{◌≡◌, ◌<◌, ℤ, pos, ◌≤ℤ◌};
ghost use Rattle.std.specs.Cmp.{IsTotalOrder};
ghost use Rattle.std.specs.declared.cmp.Ordering.TheVariants.{Less, Equal};
ghost use Rattle.value_core.specs.declared.fraction.Fraction.{Fraction};
ghost use Rattle.value_core.specs.declared.value.Value.{Value};
ghost use Rattle.value_core.specs.Fractions.{IsReduced, fraction_order};
ghost use Rattle.value_core.specs.Values.{kind, value_order};

/// A fraction has one lowest form: the definition determines both of its parts, and so the value. It
/// does nothing, and its contract is the law.
pub fn lowest_form_is_unique()
    ensures value { (n c : ℤ) (x y : Fraction) → pos 1 ≤ℤ c
        → IsReduced n c x.n x.d → IsReduced n c y.n y.d → x ≡ y }
    ensures parts { (n c a d b e : ℤ) → pos 1 ≤ℤ c
        → IsReduced n c a d → IsReduced n c b e → (a ≡ b) × (d ≡ e) }
{}

/// Fractions have one total order, and only a fraction itself compares equal to it. It does nothing,
/// and its contract is the law.
pub fn fractions_are_ordered()
    ensures total { IsTotalOrder fraction_order }
    ensures exact { (x y : Fraction) → fraction_order x y ≡ Equal → x ≡ y }
{}

/// Values have one total order, a value of a lesser kind stands first, and only a value itself
/// compares equal to it. It does nothing, and its contract is the law.
pub fn values_are_ordered()
    ensures total { IsTotalOrder value_order }
    ensures by_kind { (x y : Value) → kind x < kind y → value_order x y ≡ Less }
    ensures exact { (x y : Value) → value_order x y ≡ Equal → x ≡ y }
{}
