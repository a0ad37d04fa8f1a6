ghost use Rattle.std.specs.Prelude.{◌≡◌, ◌||◌, IfOk, Ok, is_some, not};
ghost use Rattle.plain_data.specs.Results.{and_then};
ghost use Rattle.cell_core.specs.Schemas.{is_bad_name};
ghost use Rattle.cell_core.specs.declared.schema.Numbers.TheVariants.{Two};
ghost use Rattle.expr_spec.specs.TreeViews.{tree_view};
ghost use Rattle.expr_spec.specs.Typing.{column_named, kind_of};
ghost use Rattle.row_cells.specs.Rows.{read_each};
ghost use Rattle.plan_check.specs.Expressions.{expression, expression_at, expressions_of, kind_answer, parse_answer, parse_cause};
ghost use Rattle.plan_check.specs.Expressions.{parsed, typing_cause};
ghost use Rattle.plan_check.specs.Faults.{fault};
ghost use Rattle.plan_json.specs.declared.words.PlanPart.TheVariants as part;

use crate::fault::{Checked, fault_at, too_many};
use crate::refused::PlanFault;
use crate::trees::check_tree;
use cell_core::{Copies, Listed, MAX_NAME, Memory, Numbers, Schema, Text};
use expr_parse::{ParseCause, ParseRefused, parse};
use expr_spec::{TreeCause, TreeRefused};
use plan_json::{NamedText, PlanCause, PlanPart};
use plan_types::{Expression, Expressions, Tree};
use std::alloc::Global;

/// The most expressions of a plan.
const MAX_EXPRESSIONS: usize = 16;

/// The most bytes of an expression's text.
const MAX_EXPRESSION: usize = 1024;

/// The columns that expressions make.
pub(crate) fn expressions(
    alloc: Global,
    schema: &Schema,
    texts: &[NamedText],
) -> Result<Checked<Expressions>, Memory>
    ensures { IfOk result (λ found. found ≡ expressions_of schema.now.columns texts.now) }
{
    if texts.len() > MAX_EXPRESSIONS {
        return Ok(Err(too_many(PlanPart::Expressions, texts.len())));
    }
    expression_list(alloc, schema, texts)
}

fn expression_list(
    alloc: Global,
    schema: &Schema,
    texts: &[NamedText],
) -> Result<Checked<Expressions>, Memory>
    ensures { IfOk result (λ found. found ≡ read_each (expression_at schema.now.columns) 0 texts.now) }
{
    let mut found = Listed::new(alloc);
    for (i, named) in texts.iter().enumerate() {
        match expression_at(alloc, schema, i, named)? {
            Ok(expression) => found.push(expression)?,
            Err(fault) => return Ok(Err(fault)),
        }
    }
    Ok(Ok(found))
}

/// Expression `i`: its name and its length are tested before its text is read, and that before its type.
fn expression_at(
    alloc: Global,
    schema: &Schema,
    i: usize,
    named: &NamedText,
) -> Result<Checked<Expression>, Memory>
    ensures { IfOk result (λ found. found ≡ expression_at schema.now.columns i named.now) }
{
    let part = PlanPart::Expressions;
    if !is_free_name(schema, &named.name) {
        return Ok(Err(fault_at(part, PlanCause::Name, i)));
    }
    if named.text.as_str().len() > MAX_EXPRESSION {
        return Ok(Err(fault_at(part, PlanCause::Long, i)));
    }
    match tree_at(alloc, i, &named.text)? {
        Ok(tree) => typed_expression(alloc, schema, i, named, tree),
        Err(fault) => Ok(Err(fault)),
    }
}

/// Whether a name has from 1 to 256 bytes and is no column of the schema.
fn is_free_name(schema: &Schema, name: &Text) -> bool
    ensures { result ≡ not (is_bad_name name.now || is_some (column_named schema.now.columns name.now)) }
{
    let length = name.as_str().len();
    length != 0 && length <= MAX_NAME && schema.find(name).is_none()
}

/// The tree of text `i`, or its first fault.
fn tree_at(alloc: Global, i: usize, text: &Text) -> Result<Checked<Tree>, Memory>
    ensures { IfOk result (λ found. found ≡ parse_answer i (parsed text.now)) }
{
    match parse(alloc, text) {
        Ok(tree) => Ok(Ok(tree)),
        Err(ParseRefused::Bad { at, cause }) => Ok(Err(placed(parse_cause(cause), i, at))),
        Err(ParseRefused::Memory) => Err(Memory),
    }
}

fn typed_expression(
    alloc: Global,
    schema: &Schema,
    i: usize,
    named: &NamedText,
    mut tree: Tree,
) -> Result<Checked<Expression>, Memory>
    ensures { IfOk result (λ found. found
        ≡ and_then (kind_answer i (kind_of schema.now.columns (tree_view tree)))
        (λ kind. Ok (expression schema.now.columns named.now tree kind))) }
{
    match check_tree(schema, &mut tree) {
        Ok(kind) => Ok(Ok(Expression {
            name: named.name.copy(alloc)?,
            kind,
            tree,
        })),
        Err(TreeRefused { at, cause }) => Ok(Err(placed(typing_cause(cause), i, at))),
    }
}

/// The fault of expression `i` at a byte place in its text.
fn placed(cause: PlanCause, i: usize, at: usize) -> PlanFault
    ensures { result ≡ fault part.Expressions cause (Two i at) }
{
    PlanFault {
        part: PlanPart::Expressions,
        cause,
        at: Numbers::Two(i as u64, at as u64),
    }
}

fn parse_cause(cause: ParseCause) -> PlanCause
    ensures { result ≡ parse_cause cause }
{
    match cause {
        ParseCause::Number => PlanCause::Number,
        ParseCause::Nesting => PlanCause::Nesting,
        ParseCause::Syntax => PlanCause::Syntax,
    }
}

fn typing_cause(cause: TreeCause) -> PlanCause
    ensures { result ≡ typing_cause cause }
{
    match cause {
        TreeCause::Unknown => PlanCause::Unknown,
        TreeCause::BadType => PlanCause::BadType,
        TreeCause::Unit => PlanCause::Unit,
    }
}
