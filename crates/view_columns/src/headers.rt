ghost use Rattle.std.specs.Prelude.{◌≡◌, IfOk, List, OnOk, ◌++◌};
ghost use Rattle.cell_core.specs.declared.cell.Cell.{Cell as CellData};
ghost use Rattle.cell_core.specs.declared.schema.Column.{Column as ColumnData};
ghost use Rattle.plan_types.specs.declared.plan.Plan.{Plan as PlanData};
ghost use Rattle.view_spec.specs.Cells.{head_at, header_of as header_under};
ghost use Rattle.view_columns.specs.Headers.{each_under, under};

use crate::columns::{column_name, shown_type_of};
use crate::texts::path_text;
use cell_core::{Cell, Column, Copies, Listed, Memory, Path};
use plan_types::Plan;
use std::alloc::Global;
use view_types::{Header, HeaderColumn};

/// The columns that a view shows under one split path.
#[derive(Debug, Drop)]
pub struct SplitColumns {
    /// The split values; none where nothing is split.
    pub split: Path,
    /// The text and type of each shown column under them.
    pub columns: Header,
}

/// The text and type of each shown column under a split path. Want of memory is the only refusal.
pub fn columns_under(
    alloc: Global,
    columns: &[Column],
    plan: &Plan,
    split: &[Cell],
) -> Result<Header, Memory>
    ensures { IfOk result (λ header. header ≡ under columns.now plan.now split.now) }
{
    let shown = plan.columns.as_slice();
    let mut header = Vec::with_capacity(alloc, shown.len())?;
    for column in shown {
        header.push(header_column(alloc, columns, plan, split, *column)?)?;
    }
    Ok(Listed::from_vec(header))
}

fn header_column(
    alloc: Global,
    columns: &[Column],
    plan: &Plan,
    split: &[Cell],
    i: usize,
) -> Result<HeaderColumn, Memory>
    ensures { IfOk result (λ column. column ≡ head_at columns.now plan.now split.now i) }
{
    Ok(HeaderColumn {
        text: path_text(alloc, split, column_name(columns, plan, i))?,
        kind: shown_type_of(columns, plan, i),
    })
}

/// The shown columns under each of some split paths, in the same order. Want of memory is the only refusal.
pub fn split_columns(
    alloc: Global,
    columns: &[Column],
    plan: &Plan,
    splits: Vec<Path>,
) -> Result<Vec<SplitColumns>, Memory>
    ensures { IfOk result (λ made. made.items ≡ each_under columns.now plan.now splits.items) }
{
    let mut made = Vec::with_capacity(alloc, splits.len())?;
    for split in splits {
        let under = columns_under(alloc, columns, plan, split.as_slice())?;
        made.push(SplitColumns {
            split,
            columns: under,
        })?;
    }
    Ok(made)
}

/// The header of a view: its shown columns under each split path, one path after the other. Want of memory is the only
/// refusal.
pub fn header_of(alloc: Global, splits: &[SplitColumns]) -> Result<Header, Memory>
    ensures { (columns : List ColumnData) (plan : PlanData) (paths : List (List CellData)) → splits.now ≡ each_under columns plan paths
        → IfOk result (λ header. header ≡ header_under columns plan paths) }
{
    let mut header = Vec::new(alloc);
    for one in splits {
        add_columns(alloc, &mut header, one.columns.as_slice())?;
    }
    Ok(Listed::from_vec(header))
}

/// Adds copies of some columns, in the same order.
fn add_columns(
    alloc: Global,
    header: &mut Vec<HeaderColumn>,
    columns: &[HeaderColumn],
) -> Result<(), Memory>
    ensures { OnOk result (header.new.items ≡ header.old.items ++ columns.now) }
{
    for column in columns {
        header.push(column.copy(alloc)?)?;
    }
    Ok(())
}
