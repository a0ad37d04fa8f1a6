use std::error::Error;
use std::fmt;

/// Why an expression has no type.
#[derive(Clone, Copy, Debug, Drop, PartialEq, Eq)]
pub enum TreeCause {
    /// A name that is no column of the schema, or no function.
    Unknown,
    /// Arguments of other types or of another number, or a text of more than 256 bytes.
    BadType,
    /// The second argument of `bucket` is no literal that fits the first.
    Unit,
}

/// The first fault of an expression against a schema, where arguments come from the left before the
/// node that has them.
#[derive(Clone, Copy, Debug, Drop, PartialEq, Eq)]
pub struct TreeRefused {
    /// The byte place in the text of the column, operator, literal or function word.
    pub at: usize,
    pub cause: TreeCause,
}

impl fmt::Display for TreeCause {
    fn fmt<W: fmt::Write>(&self, f: &mut fmt::Formatter<W>) -> fmt::Result {
        f.write_str(match self {
            TreeCause::Unknown => "no column or function of that name",
            TreeCause::BadType => "arguments of another type or number",
            TreeCause::Unit => "no unit that fits the first argument",
        })
    }
}

impl fmt::Display for TreeRefused {
    fn fmt<W: fmt::Write>(&self, f: &mut fmt::Formatter<W>) -> fmt::Result {
        write!(f, "{}, at byte {}", self.cause, self.at)
    }
}

impl Error for TreeRefused {}
