ghost use Rattle.std.specs.Prelude.{◌≡◌, IfErr, IfOk, Ok};
ghost use Rattle.plan_json.specs.Plans.{raw_plan_view};
ghost use Rattle.plan_check.specs.Faults.{RefusesPlan};
ghost use Rattle.plan_check.specs.Plans.{checked, checked_in};

use crate::columns::{aggregates, all_columns, groups, shown, splits};
use crate::expressions::expressions;
use crate::fault::Checked;
use crate::filters::{every, filters};
use crate::refused::{PlanFault, PlanRefused};
use crate::sorts::sorts;
use cell_core::{Column, Memory, Schema};
use plan_json::RawPlan;
use plan_types::{Expressions, Filters, Plan};
use std::alloc::Global;

/// The value of a part, and else this function answers its fault.
macro_rules! value_or_fault {
    ($part:expr) => {
        match $part {
            Ok(value) => value,
            Err(fault) => return Ok(Err(fault)),
        }
    };
}

/// The plan that a written one is against a schema: columns by their numbers, first the schema's and then those of the
/// expressions in the order of their names; each expression as a tree with its type; the values of filters as cells.
///
/// A plan is refused for its first fault: members in the order of `PlanPart`, in a member the first position, and at
/// one position the causes in the order in which `docs/PROTOCOL.md` lists them. Positions count from 0, and those of `expressions` and
/// `aggregates` by the order of their names.
pub fn check(alloc: Global, schema: &Schema, raw: &RawPlan) -> Result<Plan, PlanRefused>
    ensures ok { IfOk result (λ plan. checked schema.now (raw_plan_view raw.now) ≡ Ok plan) }
    ensures err { IfErr result (RefusesPlan (checked schema.now (raw_plan_view raw.now))) }
{
    match checked(alloc, schema, raw)? {
        Ok(plan) => Ok(plan),
        Err(PlanFault { part, cause, at }) => Err(PlanRefused::Bad { part, cause, at }),
    }
}

fn checked(alloc: Global, schema: &Schema, raw: &RawPlan) -> Result<Checked<Plan>, Memory>
    ensures { IfOk result (λ plan. plan ≡ checked schema.now (raw_plan_view raw.now)) }
{
    let made = value_or_fault!(expressions(alloc, schema, raw.expressions.as_slice())?);
    let columns = all_columns(alloc, schema, made.as_slice())?;
    checked_in(alloc, schema, made, columns.as_slice(), raw)
}

/// The members behind the expressions.
fn checked_in(
    alloc: Global,
    schema: &Schema,
    expressions: Expressions,
    columns: &[Column],
    raw: &RawPlan,
) -> Result<Checked<Plan>, Memory>
    ensures { IfOk result (λ plan. plan
        ≡ checked_in schema.now.columns expressions columns.now (raw_plan_view raw.now)) }
{
    let shown = value_or_fault!(shown(alloc, schema, columns, &raw.columns)?);
    let group_by = value_or_fault!(groups(alloc, columns, raw.group_by.as_slice())?);
    let split_by = value_or_fault!(splits(alloc, columns, raw.split_by.as_slice())?);
    let aggregates = value_or_fault!(aggregates(alloc, columns, raw.aggregates.as_slice())?);
    let list = value_or_fault!(filters(alloc, columns, raw.filter.as_slice())?);
    let every = value_or_fault!(every(&raw.filter_op));
    let sorts = value_or_fault!(sorts(
        alloc,
        columns,
        group_by.as_slice(),
        aggregates.as_slice(),
        raw.sort.as_slice(),
    )?);
    Ok(Ok(Plan {
        columns: shown,
        group_by,
        split_by,
        aggregates,
        filters: Filters { list, every },
        sorts,
        expressions,
    }))
}
