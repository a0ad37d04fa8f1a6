ghost use Rattle.std.specs.Prelude.{◌≡◌, OnOk, IfOk};
ghost use Rattle.expr_spec.specs.TreeViews.{tree_view};
ghost use Rattle.expr_spec.specs.Typing.{kind_of, numbered, IsCheckedTree};
ghost use Rattle.plan_check.specs.Trees.{tree_of};

use crate::number::number;
use crate::typing::tree_kind;
use cell_core::{CellType, Schema};
use expr_spec::TreeRefused;
use plan_types::Tree;

/// The type of a tree against a schema's columns, or its first fault. A tree that has a type gets the
/// number of each column that it names; after a refusal nothing is said of the tree.
pub fn check_tree(schema: &Schema, tree: &mut Tree) -> Result<CellType, TreeRefused>
    ensures kind { result ≡ kind_of schema.now.columns (tree_view tree.old) }
    ensures checked { IfOk result (IsCheckedTree schema.now.columns (tree_view tree.new)) }
    ensures numbered { OnOk result (tree_view tree.new ≡ numbered schema.now.columns (tree_view tree.old)) }
    ensures tree { OnOk result (tree.new ≡ tree_of (numbered schema.now.columns (tree_view tree.old))) }
{
    let kind = tree_kind(schema, tree)?;
    number(schema, tree);
    Ok(kind)
}
