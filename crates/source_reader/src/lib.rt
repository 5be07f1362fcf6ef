// Reading the tree of a source from its tokens.
#![tactic(auto)]

mod declaration;
mod expression;
mod lines;
mod program;
mod reading;
mod schedule;
mod statement;
mod token;

pub use lines::{item_lines, one_line_an_item};
pub use reading::{Reading, one_tree, read};
