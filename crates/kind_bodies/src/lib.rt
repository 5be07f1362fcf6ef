// Checking bodies against the rules of kinds.
#![tactic(auto)]

mod body;
mod effect;
mod expression;
mod fault;
mod form;
mod found;
mod lines;
mod name;
mod operator;
mod place;
mod plain;
mod rule;
mod statement;

pub use body::check_body;
pub use fault::KindFault;
pub use lines::{first_line, next_lines};
