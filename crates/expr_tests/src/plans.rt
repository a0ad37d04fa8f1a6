use crate::given::{Given, cell, tree};
use cell_core::{CellType, Cells, Direction, Listed, Memory, Text};
use plan_types::{
    AggName, Expression, Expressions, Filter, FilterList, FilterTest, Filters, Named, Plan, Sort,
};
use std::alloc::Global;
use std::test::Fail;

fn empty(alloc: Global) -> Plan {
    Plan {
        columns: Listed::new(alloc),
        group_by: Listed::new(alloc),
        split_by: Listed::new(alloc),
        aggregates: Listed::new(alloc),
        filters: Filters {
            list: Listed::new(alloc),
            every: false,
        },
        sorts: Listed::new(alloc),
        expressions: Listed::new(alloc),
    }
}

fn add_columns(plan: &mut Plan) -> Result<(), Memory> {
    plan.columns.push(4)?;
    plan.group_by.push(0)?;
    plan.split_by.push(2)
}

fn add_terms(plan: &mut Plan) -> Result<(), Memory> {
    plan.aggregates.push(Named {
        column: 1,
        aggregate: AggName::Mean,
    })?;
    plan.sorts.push(Sort {
        column: 1,
        direction: Direction::DescAbs,
    })
}

fn add_filter(filters: &mut FilterList, test: FilterTest) -> Result<(), Memory> {
    filters.push(Filter { column: 2, test })
}

fn numbers(alloc: Global) -> Result<Cells, Memory> {
    let mut numbers = Cells::new(alloc);
    numbers.push(cell(alloc, Given::Number(5))?)?;
    Ok(numbers)
}

fn add_filters(alloc: Global, filters: &mut FilterList) -> Result<(), Memory> {
    add_filter(
        filters,
        FilterTest::AtLeast(cell(alloc, Given::Words("b"))?),
    )?;
    add_filter(filters, FilterTest::Begins(Text::from_str(alloc, "a")?))?;
    add_filter(filters, FilterTest::Among(numbers(alloc)?))?;
    add_filter(filters, FilterTest::IsNull)
}

fn add_expression(alloc: Global, expressions: &mut Expressions, text: &str) -> Result<(), Fail> {
    let tree = tree(alloc, text)?;
    expressions.push(Expression {
        name: Text::from_str(alloc, "e")?,
        kind: CellType::Boolean,
        tree,
    })?;
    Ok(())
}

fn plan(alloc: Global) -> Result<Plan, Fail> {
    let mut plan = empty(alloc);
    add_columns(&mut plan)?;
    add_terms(&mut plan)?;
    add_filters(alloc, &mut plan.filters.list)?;
    add_expression(
        alloc,
        &mut plan.expressions,
        "max(-\"c\", 1) == '2' and true",
    )?;
    Ok(plan)
}

fn printed(alloc: Global, plan: &Plan) -> Result<String, Fail> {
    Ok(format!(in alloc; "{plan:?}")?)
}

fn is_copied(alloc: Global, plan: &Plan) -> Result<bool, Fail> {
    let copy = printed(alloc, &plan.copy(alloc)?)?;
    Ok(copy.as_str() == printed(alloc, plan)?.as_str())
}

#[test]
fn a_plan_is_copied(rt: HostRuntime) -> Result<(), Fail> {
    assert!(rt; is_copied(rt.alloc(), &plan(rt.alloc())?)?);
    Ok(())
}
