// Judging the syntax of a source, without a tree.
#![tactic(auto)]

mod fault;
mod grammar;
mod judging;
mod kind;
mod laws;
mod stack;
mod symbol;
#[cfg(test)]
mod tests;
mod verdict;

pub use fault::fault_of;
pub use grammar::productions;
pub use judging::judge;
pub use kind::{Kind, kind_of};
pub use laws::{one_fault, one_verdict};
pub use symbol::{Part, Symbol};
pub use verdict::Verdict;
