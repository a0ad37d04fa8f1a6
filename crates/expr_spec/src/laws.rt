ghost use Rattle.std.specs.Prelude.{◌≡◌, List, None, All};
ghost use Rattle.cell_core.specs.declared.cell.Cell.{Cell};
ghost use Rattle.cell_core.specs.declared.cell.CellType.{CellType};
ghost use Rattle.cell_core.specs.declared.schema.Column.{Column};
ghost use Rattle.row_batch.specs.Checks.{cell_fault};
ghost use Rattle.expr_spec.specs.TreeData.{TreeData};
ghost use Rattle.expr_spec.specs.Typing.{IsCheckedTree};
ghost use Rattle.expr_spec.specs.Values.{IsOnCalendar, value_in};
ghost use Rattle.row_batch.specs.Changes.{FitsColumns};

/// Laws of checked trees, which code cannot call for anything else: on a row that fits the columns a
/// checked tree gives null or a cell of its type and in range, and the dates and datetimes of such a row
/// lie on the calendar.
pub fn checked_value_laws()
    ensures value { (columns : List Column) (tree : TreeData) (kind : CellType) (row : List Cell)
        → IsCheckedTree columns tree kind → FitsColumns columns row
        → cell_fault kind (value_in tree row) ≡ None }
    ensures calendar { (columns : List Column) (row : List Cell)
        → FitsColumns columns row → All IsOnCalendar row }
{}

ghost use Rattle.std.specs.Prelude.{ℕ, ℤ, pos, ◌<◌, ◌-ℤ◌};
ghost use Rattle.std.specs.Int.{int_rem_euclid};
ghost use Rattle.expr_spec.specs.Rounding.{IsFloorQuotient, IsMultipleBelow};
ghost use Rattle.expr_spec.specs.Values.{floor_div};

/// Laws of the rounding of numbers, which code cannot call for anything else: a quotient is rounded
/// toward minus infinity, and a bucket is the greatest multiple that is not above.
pub fn rounding_laws()
    ensures quotient { (a b : ℤ) → IsFloorQuotient a b (floor_div a b) }
    ensures bucket { (a : ℤ) (n : ℕ) → 0 < n → IsMultipleBelow a (a -ℤ int_rem_euclid a (pos n)) n }
{}
