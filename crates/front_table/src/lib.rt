// Tokens of a list that grows at its end, with one writer and fronts of what was written.
#![tactic(auto)]

mod rule;
mod token;
mod view;

pub use token::{Front, Writer};
