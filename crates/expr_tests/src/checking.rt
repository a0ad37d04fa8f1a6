use crate::given::{schema, tree};
use cell_core::CellType;
use plan_check::{TreeCause, TreeRefused, check_tree};
use std::alloc::Global;
use std::test::Fail;

fn fault(at: usize, cause: TreeCause) -> Result<CellType, TreeRefused> {
    Err(TreeRefused { at, cause })
}

/// The type of an expression over an integer `v`, a text `s` and a date `d`, or its first fault.
fn checked(alloc: Global, text: &str) -> Result<Result<CellType, TreeRefused>, Fail> {
    let schema = schema(alloc, &[("v", "integer"), ("s", "string"), ("d", "date")])?;
    let mut tree = tree(alloc, text)?;
    Ok(check_tree(&schema, &mut tree))
}

#[test]
fn an_expression_has_a_type_or_a_first_fault(rt: HostRuntime) -> Result<(), Fail> {
    let cases = [
        ("bucket(\"d\", 'M')", Ok(CellType::Date)),
        ("\"v\" + \"s\"", fault(4, TreeCause::BadType)),
        ("\"w\" + \"x\"", fault(0, TreeCause::Unknown)),
        ("nope(\"x\")", fault(5, TreeCause::Unknown)),
        ("nope(1)", fault(0, TreeCause::Unknown)),
        ("bucket(\"d\", 'm')", fault(0, TreeCause::Unit)),
        ("bucket(\"d\", 'MM')", fault(0, TreeCause::Unit)),
        ("bucket(\"v\", 'M')", fault(0, TreeCause::Unit)),
        ("bucket(1, -1)", fault(0, TreeCause::Unit)),
        ("bucket(\"s\", 'M')", fault(0, TreeCause::BadType)),
    ];
    for (text, want) in cases {
        assert_eq!(rt; checked(rt.alloc(), text)?, want, "{text}");
    }
    Ok(())
}
