// A machine that runs a code up to its next need.
#![tactic(auto)]

mod laws;
mod listing;
mod machine;
mod need;
mod operators;
mod stack;
mod state;
#[cfg(test)]
mod tests;
mod values;

pub use laws::runs_end_once;
pub use machine::Machine;
pub use need::Need;
