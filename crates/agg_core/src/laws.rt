ghost use Rattle.std.specs.Prelude.{◌≡◌, ℕ, ◌^◌, ◌<◌, ◌≤◌, ℤ, pos, List, map, Some};
ghost use Rattle.value_core.specs.declared.fraction.Fraction.{Fraction};
ghost use Rattle.value_core.specs.Reduced.{IsInReach, IsReduced};
ghost use Rattle.cell_core.specs.declared.cell.Cell.{Cell};
ghost use Rattle.plan_types.specs.declared.aggregate.AggName.{AggName};
ghost use Rattle.agg_core.specs.Aggregates.{numbers, size_of, sum_of};
ghost use Rattle.agg_core.specs.Fractions.{fraction_over};
ghost use Rattle.agg_core.specs.Numbers.{IsSmallSum};
ghost use Rattle.agg_core.specs.Pairs.{cells_of};
ghost use Rattle.agg_core.specs.Standing.{ArePairs};

/// The fraction of a number over a count is there, and in its lowest terms, wherever both are in
/// reach of fractions. It does nothing, and its contract is the law.
pub fn fractions_are_lowest()
    ensures { (n : ℤ) (count : ℕ) → 0 < count → IsInReach n → count ≤ 2 ^ 100
        → (f : Fraction) × (fraction_over n count ≡ Some f) × IsReduced n (pos count) f.n f.d }
{}

/// The numbers of a group's cells, and their absolute values, have sums that are less than 2^69 away
/// from 0. It does nothing, and its contract is the law.
pub fn sums_are_small()
    ensures sums { (name : AggName) (pairs : List (Cell × Cell)) → ArePairs name pairs
        → IsSmallSum (sum_of (numbers (cells_of pairs))) }
    ensures sizes { (name : AggName) (pairs : List (Cell × Cell)) → ArePairs name pairs
        → IsSmallSum (sum_of (map size_of (numbers (cells_of pairs)))) }
{}
