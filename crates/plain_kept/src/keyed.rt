ghost use Rattle.std.specs.Prelude.{◌≡◌, IfOk, map};
ghost use Rattle.view_types.specs.Rows.{AreShownRows};
ghost use Rattle.key_map.specs.Keyed.{GivesPositions};
ghost use Rattle.view_kept.specs.Steps.{side_of};
ghost use Rattle.view_spec.specs.Touching.{key_of};
ghost use Rattle.view_spec.specs.Views.{placed, view};
ghost use Rattle.view_spec.specs.declared.placed.PlacedRow.{PlacedRow as PlacedData};
ghost use Rattle.plain_kept.specs.Plans.{IsViewPlan};

use cell_core::{Copies, Memory, Steps};
use flat_show::{PlacedRows, show_placed};
use group_show::show_groups;
use key_map::KeyMap;
use plan_types::Plan;
use std::alloc::Global;
use std::marker::Model;
use std::sync::ledger::Ledger;
use table_core::Table;
use view_shape::OpenState;
use view_spec::PlacedRow;
use view_types::{Header, ViewKey};

/// Rows at their places in the order in which they are shown, and the position of each key. Contracts see it as the
/// list of the rows. Positions count from 0.
#[derive(Drop)]
pub struct KeyedRows {
    rows: PlacedRows,
    positions: KeyMap<usize>,
}

impl Model for KeyedRows {
    ghost use Rattle.std.specs.Prelude.{List};
    ghost use Rattle.key_map.specs.Keyed.{GivesPositions};
    ghost use Rattle.view_spec.specs.Touching.{key_of};
    ghost use Rattle.view_spec.specs.declared.placed.PlacedRow.{PlacedRow};

    ghost Value = { List PlacedRow };

    ghost view = { λ s. s.rows };

    ghost invariant = { λ s. GivesPositions key_of s.positions s.rows };
}

impl KeyedRows {
    ghost use Rattle.std.specs.Option.{option_copied};
    ghost use Rattle.delta_core.specs.Rows.{at_key};
    ghost use Rattle.key_map.specs.Keyed.{index_of};

    /// The rows, with the positions of their keys. Want of memory is the only refusal.
    pub fn of(alloc: Global, rows: PlacedRows) -> Result<KeyedRows, Memory>
        ensures { IfOk result (λ keyed. keyed ≡ rows) }
    {
        let positions = positions_of(alloc, rows.as_slice())?;
        Ok(KeyedRows { rows, positions })
    }

    /// The rows, in the order in which they are shown.
    pub fn as_slice(&self) -> &[PlacedRow]
        ensures rows { result.now ≡ self.now }
        ensures shown { AreShownRows (map (λ p. p.row) self.now) }
    {
        self.rows.as_slice()
    }

    /// The position of the row with that key.
    pub fn position(&self, key: &ViewKey) -> Option<usize>
        ensures { result ≡ index_of key_of key.now self.now }
    {
        self.positions.get(key).copied()
    }

    /// The row with that key.
    pub fn get(&self, key: &ViewKey) -> Option<&PlacedRow>
        ensures { option_copied result ≡ at_key key_of key.now self.now }
    {
        let position = self.positions.get(key)?;
        self.rows.get(*position)
    }
}

/// The position of each row's key.
fn positions_of(alloc: Global, rows: &[PlacedRow]) -> Result<KeyMap<usize>, Memory>
    requires { AreShownRows (map (λ (p : PlacedData). p.row) rows.now) }
    ensures { IfOk result (λ positions. GivesPositions key_of positions rows.now) }
{
    let mut positions = KeyMap::new(alloc);
    for (position, row) in rows.iter().enumerate() {
        positions.insert(row.row.key.copy(alloc)?, position)?;
    }
    Ok(positions)
}

/// What a view shows, with the places of its rows and the positions of its keys.
#[derive(Drop)]
pub struct KeyedView {
    /// The text and type of each shown column.
    pub header: Header,
    /// The rows in the order in which they are shown.
    pub rows: KeyedRows,
}

/// What a view shows of the table's rows, asked by key. A flat plan shows rows, and one with groups the groups that the
/// opening shows. `steps` counts the visits of rows and groups.
///
/// Want of memory is the only refusal.
pub fn show_keyed<L: Ledger>(
    alloc: Global,
    plan: &Plan,
    opening: &OpenState,
    table: &Table,
    steps: &mut Steps<L>,
) -> Result<KeyedView, Memory>
    requires { IsViewPlan table.now.schema.columns plan.now }
    ensures header { IfOk result (λ shown. shown.header ≡ (view (side_of plan.now opening.now table.now)).header) }
    ensures rows { IfOk result (λ shown. shown.rows ≡ placed (side_of plan.now opening.now table.now)) }
{
    if plan.group_by.as_slice().is_empty() {
        let shown = show_placed(alloc, plan, table, steps)?;
        keyed(alloc, shown.header, shown.rows)
    } else {
        let shown = show_groups(alloc, plan, opening, table, steps)?;
        keyed(alloc, shown.header, shown.rows)
    }
}

/// The header and the rows, asked by key. Want of memory is the only refusal.
fn keyed(alloc: Global, header: Header, rows: PlacedRows) -> Result<KeyedView, Memory>
    ensures header { IfOk result (λ shown. shown.header ≡ header) }
    ensures rows { IfOk result (λ shown. shown.rows ≡ rows) }
{
    let rows = KeyedRows::of(alloc, rows)?;
    Ok(KeyedView { header, rows })
}
