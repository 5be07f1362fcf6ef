// The data of a replica: the cells of all properties, the ids that live and the dead ones.
#![tactic(auto)]

mod cells;
mod fates;
mod ids;
mod state;

pub use state::State;

#[cfg(test)]
mod tests;
