// Tokens.
use crate::identifier::Identifier;
use crate::terminal::Terminal;
use cloud_base::Sequence;

/// A token of a source. A number above `u64::MAX` counts as `u64::MAX`. A text is what stands
/// between its quotes with the escapes read, of any length.
#[derive(Debug, Drop)]
pub enum Token {
    Name(Identifier),
    Number(u64),
    Text(Sequence<u8>),
    Fixed(Terminal),
}

/// A token, the place of its first byte, from 0, and the line of that, from 1.
#[derive(Debug, Drop)]
pub struct Placed {
    pub token: Token,
    pub at: usize,
    pub line: usize,
}

/// The tokens of a text before its first lexical fault, and the place of that fault if there is
/// one.
#[derive(Debug, Drop)]
pub struct Scan {
    pub tokens: Sequence<Placed>,
    pub fault: Option<usize>,
}
