//! Why folding a delta restores a view, whatever its rows are sorted by: the laws speak of rows beside places of
//! any kind, and of any order of these. The lemmas behind them (`proofs/Rests.antt`) are of any items under keys.

ghost use Rattle.delta_core.specs.Laws.{RestsAreEqual, DeltasRestore};

/// Two lists that ascend by one order and have no key twice, and that agree outside a set of keys, have the
/// same rests outside it, in the same order. It does nothing, and its contract is the law.
pub fn rests_are_equal<P>()
    ensures { RestsAreEqual P }
{}

/// A delta that is made for all touched keys folds without fault into what was shown, and gives what is shown.
/// Places count: a row that only moved is a touched one.
/// It does nothing, and its contract is the law.
pub fn deltas_restore<P>()
    ensures { DeltasRestore P }
{}
