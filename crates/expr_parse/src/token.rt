use plain_data::Text;
use plan_types::BinaryOp;

/// What a token is.
#[derive(Debug, Drop)]
pub enum Kind {
    /// Digits of a number of at most 2^53-1.
    Number(i64),
    /// Digits of a greater number.
    TooLarge,
    Truth(bool),
    /// A name in double quotes, without the quotes and with each escape undone.
    Column(Text),
    /// A text in single quotes, likewise.
    Words(Text),
    /// A word that names a function.
    Name(Text),
    Not,
    Operator(BinaryOp),
    Open,
    Close,
    Comma,
    /// Bytes that are no token.
    Bad,
}

/// A token, and the byte place of its first byte in the text.
#[derive(Debug, Drop)]
pub struct Token {
    pub at: usize,
    pub kind: Kind,
}

/// A token at the front of some bytes, and how many of them it takes.
#[derive(Debug, Drop)]
pub struct Lexeme {
    pub kind: Kind,
    pub length: usize,
}
