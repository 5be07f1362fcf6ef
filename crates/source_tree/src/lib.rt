// The tree of a source, how it is spelled in tokens, and its limits.
#![tactic(auto)]

mod expression;
mod laws;
mod program;
mod statement;
mod tree;

pub use expression::{Expression, Level, Operator, Place};
pub use laws::spelled_words;
pub use program::{Client, Declaration, Item, Key, KeyType, Program, Property};
pub use statement::{Operation, Statement};
pub use tree::Tree;
