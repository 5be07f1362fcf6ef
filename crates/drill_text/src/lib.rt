// The source text of a drill: four clients whose statements a number tells.
#![tactic(auto)]

#[cfg(test)]
mod tests;
mod text;

pub use text::{MOST_GROUPS, drill};
