ghost use Rattle.std.specs.Prelude.{◌≡◌, map};
ghost use Rattle.expr_spec.specs.TreeViews.{tree_view, arguments_of};
ghost use Rattle.expr_spec.specs.Typing.{or_fault, column_kind, words_kind, is_unit, unit_kind, named_kind, kind_of};
ghost use Rattle.expr_spec.specs.Typing.{kinds_of};
ghost use Rattle.plan_check.specs.declared.kinds.Kinds.TheVariants as types;
ghost use Rattle.plan_check.specs.Kinds.{list_of, found_after};

use crate::kinds::{Kinds, binary_kind, call_kind, unary_kind};
use cell_core::{CellType, MAX_TEXT, Schema, Text};
use expr_spec::{Function, TreeCause, TreeRefused, date_unit_named, unit_named};
use plan_types::{Tree, TreeNode};

/// The type of a tree against a schema's columns, or its first fault: arguments come from the left, and
/// then the node. It goes as deep as the tree; an expression of 1,024 bytes has at most some 500 levels,
/// since a chain of `+` leans to the left.
#[cycle(typing)]
pub fn tree_kind(schema: &Schema, tree: &Tree) -> Result<CellType, TreeRefused>
    ensures { result ≡ kind_of schema.now.columns (tree_view tree.now) }
{
    match &tree.node {
        TreeNode::Column(name, _) => {
            or_fault(column_kind(schema, name), tree.at, TreeCause::Unknown)
        }
        TreeNode::Number(_) => Ok(CellType::Integer),
        TreeNode::Truth(_) => Ok(CellType::Boolean),
        TreeNode::Words(text) => or_fault(words_kind(text), tree.at, TreeCause::BadType),
        TreeNode::Unary(op, a) => {
            let kind = tree_kind(schema, a.get())?;
            or_fault(unary_kind(*op, kind), tree.at, TreeCause::BadType)
        }
        TreeNode::Binary(op, a, b) => {
            let left = tree_kind(schema, a.get())?;
            let right = tree_kind(schema, b.get())?;
            or_fault(binary_kind(*op, left, right), tree.at, TreeCause::BadType)
        }
        TreeNode::Call(name, arguments) => {
            let kinds = argument_kinds(schema, arguments.as_slice())?;
            named_kind(tree.at, name, arguments.as_slice(), kinds)
        }
    }
}

/// The types of arguments, or their first fault.
#[cycle(typing)]
fn argument_kinds(schema: &Schema, arguments: &[Tree]) -> Result<Kinds, TreeRefused>
    ensures { result
        ≡ found_after types.Zero (kinds_of schema.now.columns (arguments_of (map tree_view arguments.now))) }
{
    let mut kinds = Kinds::Zero;
    for argument in arguments {
        let kind = tree_kind(schema, argument)?;
        kinds = kinds.with(kind);
    }
    Ok(kinds)
}

/// What was found, or a fault at that place.
fn or_fault<T>(found: Option<T>, at: usize, cause: TreeCause) -> Result<T, TreeRefused>
    ensures { result ≡ or_fault cause at found }
{
    match found {
        Some(found) => Ok(found),
        None => Err(TreeRefused { at, cause }),
    }
}

/// The type of the column of that name.
fn column_kind(schema: &Schema, name: &Text) -> Option<CellType>
    ensures { result ≡ column_kind schema.now.columns name.now }
{
    let place = schema.find(name)?;
    schema.columns().get(place).map(|column| column.kind)
}

fn words_kind(text: &Text) -> Option<CellType>
    ensures { result ≡ words_kind text.now }
{
    if text.as_str().len() > MAX_TEXT {
        return None;
    }
    Some(CellType::Words)
}

/// The type of a call: its name is tested first, then its arguments' types, and last the unit.
fn named_kind(
    at: usize,
    name: &Text,
    arguments: &[Tree],
    kinds: Kinds,
) -> Result<CellType, TreeRefused>
    ensures { result ≡ named_kind at name.now (arguments_of (map tree_view arguments.now)) (list_of kinds) }
{
    let function = or_fault(Function::named(name.as_str()), at, TreeCause::Unknown)?;
    let kind = or_fault(call_kind(function, kinds), at, TreeCause::BadType)?;
    or_fault(unit_kind(function, arguments, kind), at, TreeCause::Unit)
}

/// The type, unless the function is `bucket` and its second argument is no unit for the type.
fn unit_kind(function: Function, arguments: &[Tree], kind: CellType) -> Option<CellType>
    ensures { result ≡ unit_kind function (arguments_of (map tree_view arguments.now)) kind }
{
    match function {
        Function::Bucket => bucket_unit(arguments, kind),
        _ => Some(kind),
    }
}

fn bucket_unit(arguments: &[Tree], kind: CellType) -> Option<CellType>
    ensures { result ≡ unit_kind Function.Bucket (arguments_of (map tree_view arguments.now)) kind }
{
    match arguments {
        [_, unit, ..] => is_unit(kind, unit).then_some(kind),
        _ => Some(kind),
    }
}

/// Whether `bucket` takes that second argument for a first of that type: a literal number of at least 1,
/// or a literal text that names a unit.
fn is_unit(kind: CellType, unit: &Tree) -> bool
    ensures { result ≡ is_unit kind (tree_view unit.now) }
{
    match (kind, &unit.node) {
        (CellType::Integer, TreeNode::Number(number)) => *number >= 1,
        (CellType::Date, TreeNode::Words(name)) => date_unit_named(name.as_str()).is_some(),
        (CellType::Moment, TreeNode::Words(name)) => unit_named(name.as_str()).is_some(),
        _ => false,
    }
}
