ghost use Rattle.std.specs.Prelude.{◌≡◌};
ghost use Rattle.expr_parse.specs.Grammar.{token};
ghost use Rattle.expr_parse.specs.Machine.{opened, at_operand, at_opening, misplaced_cause, joining, compares};
ghost use Rattle.expr_parse.specs.Machine.{closing_of, at_close, at_comma, after, step, finished, Steps, Ends};
ghost use Rattle.expr_parse.specs.Grammar.{joined};

use crate::frame::{COMPARISON, Frame, NEGATION, SUM, Want, close, depth, rank, top_strength};
use crate::refusal::{ParseCause, ParseRefused};
use crate::stack::Stack;
use crate::token::Kind;
use plain_data::Text;
use plan_types::{BinaryOp, Tree, TreeNode, Trees};
use std::alloc::Global;

/// How many parentheses, calls, nots and minus signs may stand around one another.
const MOST_NESTED: usize = 64;

/// What the token at that place makes of what is wanted and of the frames.
pub fn step(
    alloc: Global,
    want: Want,
    frames: &mut Stack<Frame>,
    at: usize,
    kind: Kind,
) -> Result<Want, ParseRefused>
    ensures { Steps at result frames.new (step 64 (want, frames.old) (token at kind)) }
{
    match want {
        Want::Operand => operand(alloc, frames, at, kind),
        Want::Opening(name, place) => opening(alloc, name, place, frames, at, kind),
        Want::After(tree) => after(alloc, tree, frames, at, kind),
    }
}

fn operand(
    alloc: Global,
    frames: &mut Stack<Frame>,
    at: usize,
    kind: Kind,
) -> Result<Want, ParseRefused>
    ensures { Steps at result frames.new (at_operand 64 frames.old at kind) }
{
    let node = match kind {
        Kind::Number(number) => TreeNode::Number(number),
        Kind::Truth(truth) => TreeNode::Truth(truth),
        Kind::Column(name) => TreeNode::Column(name, None),
        Kind::Words(words) => TreeNode::Words(words),
        Kind::Name(name) => return called(name, frames, at),
        Kind::Not => return negated(frames, at),
        Kind::Operator(BinaryOp::Minus) => return opened(Frame::Minus(at), frames, at),
        Kind::Open => return opened(Frame::Group, frames, at),
        Kind::TooLarge => return Err(bad(at, ParseCause::Number)),
        Kind::Operator(_) | Kind::Close | Kind::Comma | Kind::Bad => {
            return Err(bad(at, ParseCause::Syntax));
        }
    };
    Ok(Want::After(Tree { at, node }))
}

fn bad(at: usize, cause: ParseCause) -> ParseRefused
    ensures { result ≡ ParseRefused.Bad at cause }
{
    ParseRefused::Bad { at, cause }
}

/// The frame opens, if not too many stand open.
fn opened(frame: Frame, frames: &mut Stack<Frame>, at: usize) -> Result<Want, ParseRefused>
    ensures { Steps at result frames.new (opened 64 frame frames.old) }
{
    if depth(frames) >= MOST_NESTED {
        return Err(bad(at, ParseCause::Nesting));
    }
    frames.push(frame)?;
    Ok(Want::Operand)
}

/// A `not` opens where a negation may stand.
fn negated(frames: &mut Stack<Frame>, at: usize) -> Result<Want, ParseRefused>
    ensures { Steps at result frames.new (at_operand 64 frames.old at Kind.Not) }
{
    if top_strength(frames) >= NEGATION {
        return Err(bad(at, ParseCause::Syntax));
    }
    opened(Frame::Not(at), frames, at)
}

/// A function's word opens its call, whatever follows it.
fn called(name: Text, frames: &mut Stack<Frame>, at: usize) -> Result<Want, ParseRefused>
    ensures { Steps at result frames.new (at_operand 64 frames.old at (Kind.Name name)) }
{
    if depth(frames) >= MOST_NESTED {
        return Err(bad(at, ParseCause::Nesting));
    }
    Ok(Want::Opening(name, at))
}

/// What a token that can't stand there is refused by.
fn misplaced(kind: &Kind) -> ParseCause
    ensures { result ≡ misplaced_cause kind.now }
{
    match kind {
        Kind::TooLarge => ParseCause::Number,
        _ => ParseCause::Syntax,
    }
}

fn opening(
    alloc: Global,
    name: Text,
    place: usize,
    frames: &mut Stack<Frame>,
    at: usize,
    kind: Kind,
) -> Result<Want, ParseRefused>
    ensures { Steps at result frames.new (at_opening name place frames.old kind) }
{
    match kind {
        Kind::Open => {
            frames.push(Frame::Call(name, place, Trees::new(alloc)))?;
            Ok(Want::Operand)
        }
        other => Err(bad(at, misplaced(&other))),
    }
}

fn after(
    alloc: Global,
    tree: Tree,
    frames: &mut Stack<Frame>,
    at: usize,
    kind: Kind,
) -> Result<Want, ParseRefused>
    ensures { Steps at result frames.new (after tree frames.old at kind) }
{
    match kind {
        Kind::Operator(op) => {
            let left = close(alloc, closing(op), tree, frames)?;
            joined(op, left, frames, at)
        }
        Kind::Close => {
            let inner = close(alloc, 1, tree, frames)?;
            closed(inner, frames, at)
        }
        Kind::Comma => {
            let argument = close(alloc, 1, tree, frames)?;
            parted(argument, frames, at)
        }
        other => Err(bad(at, misplaced(&other))),
    }
}

/// How tightly a frame must hold its last operand so that the operator closes it.
fn closing(op: BinaryOp) -> u8
    ensures { result ≡ closing_of (joined op) }
{
    let rank = rank(op);
    if rank == COMPARISON { SUM } else { rank }
}

/// The operator takes its left operand. Comparisons don't follow one another.
fn joined(
    op: BinaryOp,
    left: Tree,
    frames: &mut Stack<Frame>,
    at: usize,
) -> Result<Want, ParseRefused>
    ensures { Steps at result frames.new (joining op at (left, frames.old)) }
{
    if rank(op) == COMPARISON && top_strength(frames) >= COMPARISON {
        return Err(bad(at, ParseCause::Syntax));
    }
    frames.push(Frame::Left(op, at, left))?;
    Ok(Want::Operand)
}

/// A closing parenthesis after `inner`.
fn closed(inner: Tree, frames: &mut Stack<Frame>, at: usize) -> Result<Want, ParseRefused>
    ensures { Steps at result frames.new (at_close inner frames.old) }
{
    match frames.pop() {
        Some(Frame::Group) => Ok(Want::After(inner)),
        Some(Frame::Call(name, place, mut arguments)) => {
            arguments.push(inner)?;
            let node = TreeNode::Call(name, arguments);
            Ok(Want::After(Tree { at: place, node }))
        }
        _ => Err(bad(at, ParseCause::Syntax)),
    }
}

/// A comma after `argument`.
fn parted(argument: Tree, frames: &mut Stack<Frame>, at: usize) -> Result<Want, ParseRefused>
    ensures { Steps at result frames.new (at_comma argument frames.old) }
{
    match frames.pop() {
        Some(Frame::Call(name, place, mut arguments)) => {
            arguments.push(argument)?;
            frames.push(Frame::Call(name, place, arguments))?;
            Ok(Want::Operand)
        }
        _ => Err(bad(at, ParseCause::Syntax)),
    }
}

/// What the end of the text makes of what is wanted and of the frames.
pub fn finish(
    alloc: Global,
    want: Want,
    frames: &mut Stack<Frame>,
    end: usize,
) -> Result<Tree, ParseRefused>
    ensures { Ends result (finished end (want, frames.old)) }
{
    let Want::After(operand) = want else {
        return Err(bad(end, ParseCause::Syntax));
    };
    let tree = close(alloc, 1, operand, frames)?;
    if frames.top().is_some() {
        return Err(bad(end, ParseCause::Syntax));
    }
    Ok(tree)
}
