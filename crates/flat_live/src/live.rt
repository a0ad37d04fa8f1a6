ghost use Rattle.std.specs.Prelude.{◌≡◌, ◌-◌, IfOk, drop, map, take};
ghost use Rattle.view_columns.specs.Headers.{under};
ghost use Rattle.flat_live.specs.Rows.{as_placed, shown_row};

use crate::building::build;
use crate::changes::settle_all;
use crate::comparing::{compare_new, compare_old};
use crate::header::renew_header;
use crate::rows::FlatRows;
use crate::showing::{place_row, show_row};
use cell_core::{Column, Copies, Listed, Memory, Steps};
use delta_core::{ShownNow, Touched};
use flat_show::PlacedRows;
use plan_types::Plan;
use row_batch::RowChange;
use std::alloc::Global;
use std::sync::ledger::Ledger;
use table_core::Table;
use view_kept::KeptView;
use view_shape::OpenState;
use view_spec::PlacedRow;
use view_types::{Header, ShownRow, ShownRows, ViewKey, same_header};

/// A flat view that is kept from step to step by the changes.
///
/// It has a copy of the table's columns, whose names are in the texts under which values are shown.
#[derive(Drop)]
pub struct FlatLive {
    /// The columns of the table.
    pub columns: Listed<Column>,
    /// The plan that it is a view by.
    pub plan: Plan,
    /// The text and type of each shown column under each split path.
    pub header: Header,
    /// The kept rows, each with its split cells and the cells of the shown columns.
    pub rows: FlatRows,
}

impl ShownNow for FlatLive {
    ghost use Rattle.flat_live.specs.Flat.{flat_shown};

    ghost shown = { flat_shown };

    fn position(&self, key: &ViewKey) -> Option<usize> {
        let _count = self.rows.len();
        self.rows.position(key)
    }

    fn row(&self, alloc: Global, key: &ViewKey) -> Result<Option<ShownRow>, Memory> {
        match self.rows.get(key) {
            Some(entry) => Ok(Some(show_row(alloc, self.columns.as_slice(), &self.plan, entry)?)),
            None => Ok(None),
        }
    }

    fn header(&self, alloc: Global) -> Result<Header, Memory> {
        self.header.copy(alloc)
    }
}

impl FlatLive {
    ghost use Rattle.delta_core.specs.Rows.{position_of};
    ghost use Rattle.flat_live.specs.Flat.{flat_shown};
    ghost use Rattle.flat_live.specs.Rows.{as_placed};

    /// The position of the row with that key, counted from 0, and none exactly where no row has it.
    pub fn place_of(&self, key: &ViewKey) -> Option<usize>
        ensures { result ≡ position_of key.now (flat_shown self.now).rows }
    {
        self.position(key)
    }

    /// The rows at their places, in the order in which they are shown. Want of memory is the only refusal.
    pub fn placed_rows(&self, alloc: Global) -> Result<PlacedRows, Memory>
        ensures { IfOk result (λ rows. rows ≡ map (as_placed (under self.now.columns self.now.plan)) self.now.rows) }
    {
        let _count = self.rows.len();
        let rows = all_placed(alloc, self.columns.as_slice(), &self.plan, &self.rows)?;
        Ok(PlacedRows::from_listed(Listed::from_vec(rows)))
    }

    /// The rows at positions from `from` up to and without `to`, as far as there are any.
    fn rows_in(&self, alloc: Global, from: u64, to: u64) -> Result<ShownRows, Memory>
        ensures { IfOk result (λ rows. rows ≡ take (to - from) (drop from (flat_shown self.now).rows)) }
    {
        let _count = self.rows.len();
        let rows = rows_between(
            alloc,
            self.columns.as_slice(),
            &self.plan,
            &self.rows,
            from,
            to,
        )?;
        Ok(ShownRows::from_listed(Listed::from_vec(rows)))
    }
}

impl KeptView for FlatLive {
    ghost use Rattle.flat_live.specs.Flat.{StandsFlat, counts_flat, fits_flat, shows_flat};

    ghost stands_for = { StandsFlat };

    ghost fits = { fits_flat };

    ghost counts = { counts_flat };

    fn len(&self) -> usize {
        self.rows.len()
    }

    fn window(&self, alloc: Global, from: u64, to: u64) -> Result<ShownRows, Memory> {
        self.rows_in(alloc, from, to)
    }

    fn apply<L: Ledger>(
        &mut self,
        alloc: Global,
        _table: &Table,
        changes: &[RowChange],
        touched: &mut Touched,
        _steps: &mut Steps<L>,
    ) -> Result<(), Memory> {
        let _first = self.rows.len();
        settle_all(
            alloc,
            self.columns.as_slice(),
            &self.plan,
            changes,
            &mut self.rows,
            touched,
        )?;
        let _last = self.rows.len();
        renew_header(
            alloc,
            self.columns.as_slice(),
            &self.plan,
            &self.rows,
            &mut self.header,
            &mut touched.header,
        )
    }

    fn reshape<L: Ledger>(
        &self,
        alloc: Global,
        plan: Plan,
        _opening: &OpenState,
        table: &Table,
        touched: &mut Touched,
        steps: &mut Steps<L>,
    ) -> Result<FlatLive, Memory> {
        let _size = table.len();
        let other = build(alloc, plan, table, steps)?;
        compare_old(alloc, self, &other, &mut touched.keys)?;
        compare_new(alloc, self, &other, &mut touched.keys)?;
        touched.header = !same_header(self.header.as_slice(), other.header.as_slice());
        Ok(other)
    }

    ghost shows = { shows_flat };
}

/// The rows at positions from `from` up to and without `to`, as they are shown.
fn rows_between(
    alloc: Global,
    columns: &[Column],
    plan: &Plan,
    rows: &FlatRows,
    from: u64,
    to: u64,
) -> Result<Vec<ShownRow>, Memory>
    ensures { IfOk result (λ copies. copies.items ≡ take (to - from) (drop from (map (shown_row (under columns.now plan.now)) rows.now))) }
{
    let part = rows.window(from as usize, to as usize)?;
    let mut copies = Vec::with_capacity(alloc, part.len())?;
    for entry in &part {
        copies.push(show_row(alloc, columns, plan, *entry)?)?;
    }
    Ok(copies)
}

/// All rows at their places, as they are shown.
fn all_placed(
    alloc: Global,
    columns: &[Column],
    plan: &Plan,
    rows: &FlatRows,
) -> Result<Vec<PlacedRow>, Memory>
    ensures { IfOk result (λ copies. copies.items ≡ map (as_placed (under columns.now plan.now)) rows.now) }
{
    let all = rows.window(0, rows.len())?;
    let mut copies = Vec::with_capacity(alloc, all.len())?;
    for entry in &all {
        copies.push(place_row(alloc, columns, plan, *entry)?)?;
    }
    Ok(copies)
}
