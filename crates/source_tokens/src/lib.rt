// The tokens of a source text.
#![tactic(auto)]

mod brackets;
mod identifier;
mod lexeme;
mod position;
mod scanner;
mod terminal;
#[cfg(test)]
mod tests;
mod token;
mod words;

pub use brackets::{MOST_OPEN, has_too_many_open};
pub use identifier::Identifier;
pub use position::{Position, position_of};
pub use scanner::{scan, scanned_tokens};
pub use terminal::Terminal;
pub use token::{Placed, Scan, Token};
