// A source text, its tokens and its tree.
#![tactic(auto)]

mod fault;
mod limits;
mod parsed;
mod source;
#[cfg(test)]
mod tests;
mod tree;

pub use fault::{ParseFault, Which};
pub use parsed::{LineList, Parsed};
pub use source::{MOST_SOURCE_BYTES, one_answer, parse};
