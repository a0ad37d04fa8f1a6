ghost use Rattle.std.specs.Prelude.{◌≡◌, map};
ghost use Rattle.expr_spec.specs.TreeViews.{tree_view, arguments_of};
ghost use Rattle.expr_spec.specs.Typing.{numbered, numbered_all};
ghost use Rattle.plan_check.specs.Trees.{tree_of, trees_of};

use cell_core::Schema;
use plan_types::{Tree, TreeNode, Trees};

/// Sets the number of each column that the tree names. It goes as deep as the tree.
#[cycle(numbering)]
pub fn number(schema: &Schema, tree: &mut Tree)
    ensures view { tree_view tree.new ≡ numbered schema.now.columns (tree_view tree.old) }
    ensures tree { tree.new ≡ tree_of (numbered schema.now.columns (tree_view tree.old)) }
{
    match &mut tree.node {
        TreeNode::Column(name, place) => *place = schema.find(name),
        TreeNode::Number(_) | TreeNode::Truth(_) | TreeNode::Words(_) => {}
        TreeNode::Unary(_, a) => number(schema, a.get_mut()),
        TreeNode::Binary(_, a, b) => {
            number(schema, a.get_mut());
            number(schema, b.get_mut());
        }
        TreeNode::Call(_, arguments) => number_all(schema, arguments),
    }
}

#[cycle(numbering)]
fn number_all(schema: &Schema, trees: &mut Trees)
    ensures view { arguments_of (map tree_view trees.new)
        ≡ numbered_all schema.now.columns (arguments_of (map tree_view trees.old)) }
    ensures trees { trees.new ≡ trees_of (numbered_all schema.now.columns (arguments_of (map tree_view trees.old))) }
{
    number_each(schema, trees.as_mut_slice());
}

#[cycle(numbering)]
fn number_each(schema: &Schema, trees: &mut [Tree])
    ensures view { arguments_of (map tree_view trees.new)
        ≡ numbered_all schema.now.columns (arguments_of (map tree_view trees.old)) }
    ensures trees { trees.new ≡ trees_of (numbered_all schema.now.columns (arguments_of (map tree_view trees.old))) }
{
    for i in 0..trees.len() {
        number(schema, &mut trees[i]);
    }
}
