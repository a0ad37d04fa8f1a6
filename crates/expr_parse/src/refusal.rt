use plain_data::Memory;
use std::alloc::AllocError;
use std::error::Error;
use std::fmt;

/// Why a text is no expression.
#[derive(Clone, Copy, Debug, Drop, PartialEq, Eq)]
pub enum ParseCause {
    /// A number above 2^53-1.
    Number,
    /// The token opens the 65th enclosing parenthesis, call, `not` or minus sign.
    Nesting,
    /// No token, or one that can't stand there.
    Syntax,
}

/// Why a text wasn't read.
#[derive(Clone, Copy, Debug, Drop, PartialEq, Eq)]
pub enum ParseRefused {
    /// The text is no expression: the byte place of the first fault, and what it is.
    Bad { at: usize, cause: ParseCause },
    /// Memory was wanted and not given.
    Memory,
}

impl fmt::Display for ParseCause {
    fn fmt<W: fmt::Write>(&self, f: &mut fmt::Formatter<W>) -> fmt::Result {
        f.write_str(match self {
            ParseCause::Number => "a number above 2^53-1",
            ParseCause::Nesting => "more than 64 levels of nesting",
            ParseCause::Syntax => "no expression goes on here",
        })
    }
}

impl fmt::Display for ParseRefused {
    fn fmt<W: fmt::Write>(&self, f: &mut fmt::Formatter<W>) -> fmt::Result {
        match self {
            ParseRefused::Bad { at, cause } => write!(f, "{cause}, at byte {at}"),
            ParseRefused::Memory => f.write_str("out of memory"),
        }
    }
}

impl Error for ParseRefused {}

impl From<AllocError> for ParseRefused {
    ghost use Rattle.std.specs.Prelude.{◌≡◌};
    ghost use Rattle.expr_parse.specs.declared.refusal.ParseRefused.TheVariants.{Memory};

    ghost from_gives = { λ _ e. e ≡ Memory };

    fn from(_refused: AllocError) -> ParseRefused {
        ParseRefused::Memory
    }
}

impl From<Memory> for ParseRefused {
    ghost use Rattle.std.specs.Prelude.{◌≡◌};
    ghost use Rattle.expr_parse.specs.declared.refusal.ParseRefused.TheVariants as refused;

    ghost from_gives = { λ _ e. e ≡ refused.Memory };

    fn from(_refused: Memory) -> ParseRefused {
        ParseRefused::Memory
    }
}
