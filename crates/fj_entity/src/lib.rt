// The ids that are created and those that are dead, closed under dependents.
#![tactic(auto)]

mod birth;
mod created;
mod groups;
mod roster;

pub use created::{Created, CreatedList};
pub use roster::Roster;

#[cfg(test)]
mod tests;
