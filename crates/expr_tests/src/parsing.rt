use crate::given::tree;
use expr_parse::{ParseCause, ParseRefused, parse};
use plain_data::{Memory, Text};
use plan_types::{BinaryOp, Tree, TreeNode, UnaryOp};
use std::alloc::Global;
use std::test::Fail;

fn fault(alloc: Global, text: &str) -> Result<Option<ParseRefused>, Memory> {
    let text = Text::from_str(alloc, text)?;
    Ok(parse(alloc, &text).err())
}

#[test]
fn faults_are_the_first_ones(rt: HostRuntime) -> Result<(), Fail> {
    let cases = [
        ("\"v\" +", 5, ParseCause::Syntax),
        ("1 + 9007199254740992", 4, ParseCause::Number),
        ("1 9007199254740992", 2, ParseCause::Number),
        ("", 0, ParseCause::Syntax),
        ("1 +  ", 5, ParseCause::Syntax),
        ("and", 0, ParseCause::Syntax),
        ("1 = 2", 2, ParseCause::Syntax),
        ("1 + \"a", 4, ParseCause::Syntax),
        ("'a\\n'", 0, ParseCause::Syntax),
        ("v", 1, ParseCause::Syntax),
        ("1 == 2 == 3", 7, ParseCause::Syntax),
        ("1 + not 2", 4, ParseCause::Syntax),
        ("f()", 2, ParseCause::Syntax),
        ("(1", 2, ParseCause::Syntax),
        ("1)", 1, ParseCause::Syntax),
        ("1, 2", 1, ParseCause::Syntax),
    ];
    for (text, at, cause) in cases {
        let found = fault(rt.alloc(), text)?;
        assert_eq!(rt; found, Some(ParseRefused::Bad { at, cause }), "{text}");
    }
    let cause = ParseCause::Syntax;
    let words = ParseRefused::Bad { at: 3, cause }.to_string(rt.alloc())?;
    assert_eq!(rt; words.as_str(), "no expression goes on here, at byte 3");
    Ok(())
}

/// The nodes of a tree, each with its place behind an `@`.
fn shape(alloc: Global, text: &str) -> Result<String, Fail> {
    let mut out = String::new(alloc);
    write_tree(alloc, &tree(alloc, text)?, 20, &mut out)?;
    Ok(out)
}

#[test]
fn trees_follow_the_grammar(rt: HostRuntime) -> Result<(), Fail> {
    let cases = [
        ("9007199254740991", "9007199254740991@0"),
        ("1-2-3", "((1@0 -@1 2@2) -@3 3@4)"),
        ("not \"a\" == \"b\"", "not@0 (a@4 ==@8 b@11)"),
        (
            "1 or 2 and not 3 <= 4 + 5 * -6",
            "(1@0 or@2 (2@5 and@7 not@11 (3@15 <=@17 (4@20 +@22 (5@24 *@26 -@28 6@29)))))",
        ),
        ("1%2-3/4<5", "(((1@0 %@1 2@2) -@3 (3@4 /@5 4@6)) <@7 5@8)"),
        ("\"a\\\"b\\\\\" != 'it\\'s'", "(a\"b\\@0 !=@9 it's@12)"),
        ("bucket(\"v\", (5))", "bucket@0(v@7,5@13,)"),
    ];
    for (text, want) in cases {
        assert_eq!(rt; shape(rt.alloc(), text)?.as_str(), want);
    }
    Ok(())
}

#[test]
fn nesting_has_a_bound(rt: HostRuntime) -> Result<(), Fail> {
    let cause = ParseCause::Nesting;
    for (open, close, at) in [
        ("(", ")", 64),
        ("f(", ")", 128),
        ("not ", "", 256),
        ("-", "", 64),
    ] {
        assert_eq!(rt; nested_fault(rt.alloc(), open, close, 64)?, None);
        let found = nested_fault(rt.alloc(), open, close, 65)?;
        assert_eq!(rt; found, Some(ParseRefused::Bad { at, cause }));
    }
    Ok(())
}

/// What is against a number with that many openings before it, and closings behind it.
fn nested_fault(
    alloc: Global,
    open: &str,
    close: &str,
    levels: usize,
) -> Result<Option<ParseRefused>, Memory> {
    let mut text = String::new(alloc);
    repeat(&mut text, open, levels)?;
    text.push_str("1")?;
    repeat(&mut text, close, levels)?;
    fault(alloc, text.as_str())
}

fn repeat(text: &mut String, part: &str, times: usize) -> Result<(), Memory> {
    for _ in 0..times {
        text.push_str(part)?;
    }
    Ok(())
}

fn write_place(alloc: Global, at: usize, out: &mut String) -> Result<(), Memory> {
    let place = format!(in alloc; "@{at}")?;
    out.push_str(place.as_str())?;
    Ok(())
}

fn write_number(alloc: Global, number: i64, out: &mut String) -> Result<(), Memory> {
    let digits = format!(in alloc; "{number}")?;
    out.push_str(digits.as_str())?;
    Ok(())
}

fn write_leaf(alloc: Global, tree: &Tree, out: &mut String) -> Result<(), Memory> {
    match &tree.node {
        TreeNode::Column(text, _) | TreeNode::Words(text) | TreeNode::Call(text, _) => {
            out.push_str(text.as_str())?;
        }
        TreeNode::Number(number) => write_number(alloc, *number, out)?,
        TreeNode::Truth(_) => out.push_str("truth")?,
        TreeNode::Unary(UnaryOp::Not, _) => out.push_str("not")?,
        TreeNode::Unary(UnaryOp::Minus, _) => out.push_str("-")?,
        TreeNode::Binary(op, _, _) => out.push_str(symbol(*op))?,
    }
    write_place(alloc, tree.at, out)
}

/// Writes the tree, down to so many levels.
fn write_tree(alloc: Global, tree: &Tree, levels: usize, out: &mut String) -> Result<(), Memory> {
    if levels == 0 {
        return Ok(());
    }
    match &tree.node {
        TreeNode::Unary(_, operand) => {
            write_leaf(alloc, tree, out)?;
            out.push_str(" ")?;
            write_tree(alloc, operand.get(), levels - 1, out)
        }
        TreeNode::Binary(_, left, right) => {
            out.push_str("(")?;
            write_tree(alloc, left.get(), levels - 1, out)?;
            out.push_str(" ")?;
            write_leaf(alloc, tree, out)?;
            out.push_str(" ")?;
            write_tree(alloc, right.get(), levels - 1, out)?;
            out.push_str(")")?;
            Ok(())
        }
        TreeNode::Call(_, arguments) => {
            write_leaf(alloc, tree, out)?;
            out.push_str("(")?;
            for argument in arguments.as_slice() {
                write_tree(alloc, argument, levels - 1, out)?;
                out.push_str(",")?;
            }
            out.push_str(")")?;
            Ok(())
        }
        _ => write_leaf(alloc, tree, out),
    }
}

fn symbol(op: BinaryOp) -> &'static str {
    match op {
        BinaryOp::Or => "or",
        BinaryOp::And => "and",
        BinaryOp::Equal => "==",
        BinaryOp::Unequal => "!=",
        BinaryOp::Less => "<",
        BinaryOp::AtMost => "<=",
        BinaryOp::Greater => ">",
        BinaryOp::AtLeast => ">=",
        BinaryOp::Plus => "+",
        BinaryOp::Minus => "-",
        BinaryOp::Times => "*",
        BinaryOp::Quotient => "/",
        BinaryOp::Rest => "%",
    }
}
