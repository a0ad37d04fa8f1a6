ghost use Rattle.std.specs.Prelude.{◌≡◌, ◌⊎◌, ℕ, List, [], length, Ok, Err, IfOk, IfErr};
ghost use Rattle.plan_types.specs.declared.tree.Tree.{Tree};
ghost use Rattle.expr_parse.specs.declared.token.Token.{Token};
ghost use Rattle.expr_parse.specs.declared.refusal.ParseCause.{ParseCause};
ghost use Rattle.expr_parse.specs.Faults.{IsRead, IsFirstFault, IsRefusal, Returns};
ghost use Rattle.expr_parse.specs.Machine.{run, Ends};
ghost use Rattle.expr_parse.specs.Tokens.{tokens};

use crate::frame::Want;
use crate::lexer::{is_blank, token_at};
use crate::parser::{finish, step};
use crate::refusal::ParseRefused;
use crate::stack::Stack;
use plain_data::Text;
use plan_types::Tree;
use std::alloc::Global;

/// The expression that a text is.
///
/// The text is refused exactly where its tokens are no expression of the grammar, with the byte place of the
/// first token at which no reading goes on, and the text's length where that is its end. At one place
/// `Number` comes before `Nesting` and that before `Syntax`. The nodes of the tree keep the byte places of
/// their column, operator, literal or function word.
pub fn parse(alloc: Global, text: &Text) -> Result<Tree, ParseRefused>
    // What is read, the grammar reads, and what isn't is refused for its first fault.
    ensures reads { IfOk result (λ tree. IsRead (tokens text.now) tree) }
    ensures refuses { IfErr result (λ refusal. IsRefusal text.now refusal) }
    // What the grammar reads is read, and each first fault is answered, unless memory runs out.
    ensures tree { (tree : Tree) → IsRead (tokens text.now) tree → Returns result (Ok tree) }
    ensures fault { (at : ℕ) (cause : ParseCause) → IsFirstFault (tokens text.now) (length text.now) at cause
        → Returns result (Err (ParseRefused.Bad at cause)) }
{
    read(alloc, text.as_str())
}

/// Some tokens, with the place of their end, have one tree or one first fault, and never both.
pub fn one_answer()
    ensures some { (ts : List Token) (end : ℕ)
        → ((x : Tree) × IsRead ts x) ⊎ ((at : ℕ) × (c : ParseCause) × IsFirstFault ts end at c) }
    ensures one_tree { (ts : List Token) (x y : Tree) → IsRead ts x → IsRead ts y → x ≡ y }
    ensures one_fault { (ts : List Token) (end at place : ℕ) (c d : ParseCause) → IsFirstFault ts end at c
        → IsFirstFault ts end place d → (at ≡ place) × (c ≡ d) }
    ensures not_both { (ts : List Token) (end at : ℕ) (c : ParseCause) (x : Tree) → IsRead ts x
        → IsFirstFault ts end at c → ⊥ }
{}

/// Reads the text once from the left.
fn read(alloc: Global, text: &str) -> Result<Tree, ParseRefused>
    ensures { Ends result (run 64 (length text.now) (Want.Operand, []) (tokens text.now)) }
{
    let mut frames = Stack::new(alloc);
    let mut want = Want::Operand;
    let mut at = 0;
    'tokens: while at < text.len() {
        if is_blank(text.as_bytes()[at]) {
            at += 1;
            continue;
        }
        let lexeme = token_at(alloc, text, at)?;
        want = step(alloc, want, &mut frames, at, lexeme.kind)?;
        at += lexeme.length;
    }
    finish(alloc, want, &mut frames, text.len())
}
