use cell_core::Listed;
use std::marker::Model;
use view_spec::PlacedRow;

/// Rows at their places, in the order in which they are shown. No key stands twice.
#[derive(Drop)]
pub struct PlacedRows {
    rows: Listed<PlacedRow>,
}

impl Model for PlacedRows {
    ghost use Rattle.std.specs.Prelude.{List, map};
    ghost use Rattle.view_types.specs.Rows.{AreShownRows};
    ghost use Rattle.view_spec.specs.declared.placed.PlacedRow.{PlacedRow};

    ghost Value = { List PlacedRow };

    ghost view = { λ s. s.rows };

    ghost invariant = { λ s. AreShownRows (map (λ p. p.row) s.rows) };
}

impl PlacedRows {
    ghost use Rattle.std.specs.Prelude.{◌≡◌, map, slice_get};
    ghost use Rattle.std.specs.Option.{option_copied};
    ghost use Rattle.view_types.specs.Rows.{AreShownRows};

    /// The rows of a list, with no copy made.
    pub fn from_listed(rows: Listed<PlacedRow>) -> PlacedRows
        requires { AreShownRows (map (λ p. p.row) rows) }
        ensures { result ≡ rows }
    {
        PlacedRows { rows }
    }

    /// The rows, in the order in which they are shown.
    pub fn as_slice(&self) -> &[PlacedRow]
        ensures rows { result.now ≡ self.now }
        ensures shown { AreShownRows (map (λ p. p.row) self.now) }
    {
        self.rows.as_slice()
    }

    /// The row at a position, counted from 0.
    pub fn get(&self, at: usize) -> Option<&PlacedRow>
        ensures { option_copied result ≡ slice_get self.now at }
    {
        self.rows.get(at)
    }
}
