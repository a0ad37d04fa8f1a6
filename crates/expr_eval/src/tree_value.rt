ghost use Rattle.std.specs.Prelude.{◌≡◌, [], ◌∷◌, map, slice_index_or, IfOk};
ghost use Rattle.expr_spec.specs.Functions.{function_named};
ghost use Rattle.expr_spec.specs.TreeViews.{tree_view, arguments_of};
ghost use Rattle.expr_spec.specs.Values.{column_value, call_value, value_in, values_in};

use crate::functions::function_value;
use crate::numbers::whole;
use crate::operators::{binary, unary};
use cell_core::{Cell, Copies, Memory, Row, Text};
use expr_spec::Function;
use plan_types::{Tree, TreeNode};
use std::alloc::Global;

/// The cell that a tree gives on a row. It goes as deep as the tree; an expression of 1,024 bytes has
/// at most some 500 levels, since a chain of `+` leans to the left.
#[cycle(tree_value)]
pub fn eval(alloc: Global, tree: &Tree, row: &Row) -> Result<Cell, Memory>
    ensures { IfOk result (λ value. value ≡ value_in (tree_view tree.now) row.now) }
{
    match &tree.node {
        TreeNode::Column(_, number) => column_value(alloc, *number, row),
        TreeNode::Number(number) => Ok(whole(i128::from(*number))),
        TreeNode::Truth(truth) => Ok(Cell::Bool(*truth)),
        TreeNode::Words(text) => Ok(Cell::Words(text.copy(alloc)?)),
        TreeNode::Unary(op, a) => Ok(unary(*op, &eval(alloc, a.get(), row)?)),
        TreeNode::Binary(op, a, b) => {
            let left = eval(alloc, a.get(), row)?;
            let right = eval(alloc, b.get(), row)?;
            Ok(binary(*op, &left, &right))
        }
        TreeNode::Call(name, arguments) => {
            let cells = values(alloc, arguments.as_slice(), row)?;
            call_value(alloc, name, cells.as_slice())
        }
    }
}

/// The cells that arguments give, in order.
#[cycle(tree_value)]
fn values(alloc: Global, arguments: &[Tree], row: &Row) -> Result<Vec<Cell>, Memory>
    ensures { IfOk result (λ cells. cells.items
        ≡ values_in (arguments_of (map tree_view arguments.now)) row.now) }
{
    let mut cells = Vec::new(alloc);
    for argument in arguments {
        cells.push(eval(alloc, argument, row)?)?;
    }
    Ok(cells)
}

fn call_value(alloc: Global, name: &Text, cells: &[Cell]) -> Result<Cell, Memory>
    ensures { IfOk result (λ value. value ≡ call_value (function_named name.now) cells.now) }
{
    match Function::named(name.as_str()) {
        Some(function) => function_value(alloc, function, cells),
        None => Ok(Cell::Null),
    }
}

/// The row's cell in that column.
fn column_value(alloc: Global, number: Option<usize>, row: &Row) -> Result<Cell, Memory>
    ensures { IfOk result (λ value. value ≡ column_value number row.now) }
{
    match number {
        Some(number) => cell_at(alloc, row.as_slice(), number),
        None => Ok(Cell::Null),
    }
}

fn cell_at(alloc: Global, cells: &[Cell], at: usize) -> Result<Cell, Memory>
    ensures { IfOk result (λ value. value ≡ slice_index_or cells.now at Cell.Null) }
{
    if at < cells.len() {
        cells[at].copy(alloc)
    } else {
        Ok(Cell::Null)
    }
}
