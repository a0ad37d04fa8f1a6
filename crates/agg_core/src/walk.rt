ghost use Rattle.std.specs.Prelude.{◌≡◌, ◌<◌, slice_get};
ghost use Rattle.std.specs.List.{All};
ghost use Rattle.std.specs.List.Sorted.{IsStrictlySortedBy};
ghost use Rattle.std.specs.Map.{keys_of, values_of};
ghost use Rattle.std.specs.Option.{option_copied};
ghost use Rattle.cell_core.specs.Cells.{cell_order};
ghost use Rattle.agg_core.specs.Aggregates.{most_frequent};
ghost use Rattle.agg_core.specs.Bags.{repeated};

use cell_core::Cell;
use std::collections::BTreeMap;

/// The cell at a place in the ascending list, counted from 0.
pub fn at_place(counts: &BTreeMap<Cell, u64>, place: u64) -> Option<&Cell>
    ensures { option_copied result ≡ slice_get (repeated counts.now.entries) place }
{
    let mut left = place;
    for (cell, count) in counts {
        if left < *count {
            return Some(cell);
        }
        left -= *count;
    }
    None
}

/// The most frequent cell, and the least of these on a tie.
pub fn most_frequent(counts: &BTreeMap<Cell, u64>) -> Option<&Cell>
    requires by_cell { IsStrictlySortedBy cell_order (keys_of counts.now.entries) }
    requires some { All (λ n. 0 < n) (values_of counts.now.entries) }
    ensures { option_copied result ≡ most_frequent (repeated counts.now.entries) }
{
    let mut best = None;
    let mut most = 0;
    for (cell, count) in counts {
        if most < *count {
            best = Some(cell);
            most = *count;
        }
    }
    best
}
