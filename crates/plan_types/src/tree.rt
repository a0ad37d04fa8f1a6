ghost use Rattle.std.specs.Prelude.{◌≡◌, IfOk};

use plain_data::{Copies, Memory, Text};
use std::alloc::Global;
use tree_items::{Boxed, Items};

/// An operator before one operand.
#[derive(Clone, Copy, Debug, Drop, PartialEq, Eq)]
pub enum UnaryOp {
    Not,
    Minus,
}

/// An operator between two operands.
#[derive(Clone, Copy, Debug, Drop, PartialEq, Eq)]
pub enum BinaryOp {
    Or,
    And,
    Equal,
    Unequal,
    Less,
    AtMost,
    Greater,
    AtLeast,
    Plus,
    Minus,
    Times,
    /// The quotient, rounded toward minus infinity.
    Quotient,
    /// What the quotient leaves.
    Rest,
}

/// An expression as it was read. Parentheses leave no node.
#[cycle(tree)]
#[derive(Debug, Drop)]
pub struct Tree {
    /// The byte place of its column, operator, literal or function word in the text.
    pub at: usize,
    pub node: TreeNode,
}

#[cycle(tree)]
#[derive(Debug, Drop)]
pub enum TreeNode {
    /// A column by its name, and by its number in the schema once the tree was checked.
    Column(Text, Option<usize>),
    Number(i64),
    Truth(bool),
    Words(Text),
    Unary(UnaryOp, Boxed<Tree>),
    Binary(BinaryOp, Boxed<Tree>, Boxed<Tree>),
    /// A function by its name, and its arguments.
    Call(Text, Trees),
}

pub type Trees = Items<Tree>;

impl Tree {
    /// An equal tree. It goes as deep as the tree.
    #[cycle(tree_copy)]
    pub fn copy(&self, alloc: Global) -> Result<Tree, Memory>
        ensures { IfOk result (λ copy. copy ≡ self.now) }
    {
        let node = self.node.copy(alloc)?;
        Ok(Tree { at: self.at, node })
    }
}

impl TreeNode {
    /// An equal node, with the trees that it has.
    #[cycle(tree_copy)]
    pub fn copy(&self, alloc: Global) -> Result<TreeNode, Memory>
        ensures { IfOk result (λ copy. copy ≡ self.now) }
    {
        match self {
            TreeNode::Column(name, number) => Ok(TreeNode::Column(name.copy(alloc)?, *number)),
            TreeNode::Number(number) => Ok(TreeNode::Number(*number)),
            TreeNode::Truth(truth) => Ok(TreeNode::Truth(*truth)),
            TreeNode::Words(text) => Ok(TreeNode::Words(text.copy(alloc)?)),
            TreeNode::Unary(op, a) => Ok(TreeNode::Unary(*op, boxed_copy(alloc, a)?)),
            TreeNode::Binary(op, a, b) => Ok(TreeNode::Binary(
                *op,
                boxed_copy(alloc, a)?,
                boxed_copy(alloc, b)?,
            )),
            TreeNode::Call(name, arguments) => {
                let arguments = copies_of(alloc, arguments)?;
                Ok(TreeNode::Call(name.copy(alloc)?, arguments))
            }
        }
    }
}

#[cycle(tree_copy)]
fn boxed_copy(alloc: Global, tree: &Boxed<Tree>) -> Result<Boxed<Tree>, Memory>
    ensures { IfOk result (λ copy. copy ≡ tree.now) }
{
    let copy = tree.get().copy(alloc)?;
    Ok(Boxed::new(alloc, copy)?)
}

#[cycle(tree_copy)]
fn copies_of(alloc: Global, trees: &Trees) -> Result<Trees, Memory>
    ensures { IfOk result (λ copies. copies ≡ trees.now) }
{
    let mut copies = Items::new(alloc);
    for tree in trees.as_slice() {
        copies.push(tree.copy(alloc)?)?;
    }
    Ok(copies)
}
