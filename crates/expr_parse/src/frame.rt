ghost use Rattle.std.specs.Prelude.{◌≡◌, IfOk};
ghost use Rattle.expr_parse.specs.Grammar.{joined};
ghost use Rattle.expr_parse.specs.Machine.{rank, strength, top_strength, opening, depth, built, closed};

use crate::stack::Stack;
use plain_data::{Memory, Text};
use plan_types::{BinaryOp, Tree, TreeNode, Trees, UnaryOp};
use std::alloc::Global;
use tree_items::Boxed;

/// What was begun and waits for an operand or an end.
#[derive(Debug, Drop)]
pub enum Frame {
    /// An operator, its place and its left operand.
    Left(BinaryOp, usize, Tree),
    /// A `not` and its place.
    Not(usize),
    /// A minus sign and its place.
    Minus(usize),
    Group,
    /// A function, its place and the arguments before the one that is being read.
    Call(Text, usize, Trees),
}

/// What was read last, so what may come next.
#[derive(Debug, Drop)]
pub enum Want {
    /// An operand has to begin.
    Operand,
    /// A function's word at that place was read: its parenthesis has to open.
    Opening(Text, usize),
    /// An operand was read.
    After(Tree),
}

/// How tightly a negation, a comparison and a sum hold together.
pub const NEGATION: u8 = 4;

pub const COMPARISON: u8 = 5;

pub const SUM: u8 = 6;

/// How tightly the phrase that an operator joins holds together.
pub fn rank(op: BinaryOp) -> u8
    ensures { result ≡ rank (joined op) }
{
    match op {
        BinaryOp::Or => 1,
        BinaryOp::And => 2,
        BinaryOp::Equal
        | BinaryOp::Unequal
        | BinaryOp::Less
        | BinaryOp::AtMost
        | BinaryOp::Greater
        | BinaryOp::AtLeast => COMPARISON,
        BinaryOp::Plus | BinaryOp::Minus => SUM,
        BinaryOp::Times | BinaryOp::Quotient | BinaryOp::Rest => 7,
    }
}

impl Frame {
    /// How tightly it holds its last operand. What ends by a parenthesis or a comma doesn't hold it at all.
    pub fn strength(&self) -> u8
        ensures { result ≡ strength self.now }
    {
        match self {
            Frame::Left(op, _, _) => rank(*op),
            Frame::Not(_) => 3,
            Frame::Minus(_) => 8,
            Frame::Group | Frame::Call(_, _, _) => 0,
        }
    }

    /// Whether it counts as a level of nesting.
    pub fn opens(&self) -> bool
        ensures { result ≡ opening self.now }
    {
        match self {
            Frame::Left(_, _, _) => false,
            Frame::Not(_) | Frame::Minus(_) | Frame::Group | Frame::Call(_, _, _) => true,
        }
    }

    /// The frame with its last operand.
    pub fn built(self, alloc: Global, operand: Tree) -> Result<Tree, Memory>
        ensures { IfOk result (λ tree. tree ≡ built self operand) }
    {
        let (at, node) = match self {
            Frame::Left(op, at, left) => (
                at,
                TreeNode::Binary(op, Boxed::new(alloc, left)?, Boxed::new(alloc, operand)?),
            ),
            Frame::Not(at) => (
                at,
                TreeNode::Unary(UnaryOp::Not, Boxed::new(alloc, operand)?),
            ),
            Frame::Minus(at) => (
                at,
                TreeNode::Unary(UnaryOp::Minus, Boxed::new(alloc, operand)?),
            ),
            Frame::Group | Frame::Call(_, _, _) => return Ok(operand),
        };
        Ok(Tree { at, node })
    }
}

/// How tightly the innermost frame holds its last operand, and 0 where nothing stands open.
pub fn top_strength(frames: &Stack<Frame>) -> u8
    ensures { result ≡ top_strength frames.now }
{
    match frames.top() {
        Some(frame) => frame.strength(),
        None => 0,
    }
}

/// How many of the frames count as levels of nesting.
#[tactic(auto, using(crate::proofs::Depths::depth_of_reverse))]
pub fn depth(frames: &Stack<Frame>) -> usize
    ensures { result ≡ depth frames.now }
{
    openings(frames.lowest_first())
}

fn openings(frames: &[Frame]) -> usize
    ensures { result ≡ depth frames.now }
{
    let mut number = 0;
    for frame in frames {
        if frame.opens() {
            number += 1;
        }
    }
    number
}

/// Gives the operand to each frame that holds it with at least that strength, from the innermost, and
/// takes those off.
pub fn close(
    alloc: Global,
    least: u8,
    operand: Tree,
    frames: &mut Stack<Frame>,
) -> Result<Tree, Memory>
    ensures { IfOk result (λ tree. closed least operand frames.old ≡ (tree, frames.new)) }
{
    let mut tree = operand;
    'closing: while top_strength(frames) >= least {
        let Some(frame) = frames.pop() else {
            break;
        };
        tree = frame.built(alloc, tree)?;
    }
    Ok(tree)
}
