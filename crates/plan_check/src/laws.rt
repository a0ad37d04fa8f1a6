ghost use Rattle.std.specs.Prelude.{◌≡◌, ℕ, List, length, Ok, Err};
ghost use Rattle.expr_parse.specs.Faults.{IsFirstFault, IsRead};
ghost use Rattle.expr_parse.specs.Tokens.{tokens};
ghost use Rattle.expr_parse.specs.declared.refusal.ParseCause.{ParseCause};
ghost use Rattle.plan_check.specs.Expressions.{parsed};
ghost use Rattle.plan_types.specs.declared.tree.Tree.{Tree};

/// Laws of what the text of an expression is read as: the function that plans are checked by gives exactly the tree
/// that the grammar reads, or the first fault. It does nothing, and its contract is the law.
pub fn texts_are_read()
    ensures read { (text : List ℕ) (tree : Tree) → parsed text ≡ Ok tree → IsRead (tokens text) tree }
    ensures tree { (text : List ℕ) (tree : Tree) → IsRead (tokens text) tree → parsed text ≡ Ok tree }
    ensures refused { (text : List ℕ) (at : ℕ) (cause : ParseCause) → parsed text ≡ Err (at, cause)
        → IsFirstFault (tokens text) (length text) at cause }
    ensures fault { (text : List ℕ) (at : ℕ) (cause : ParseCause)
        → IsFirstFault (tokens text) (length text) at cause → parsed text ≡ Err (at, cause) }
{}
