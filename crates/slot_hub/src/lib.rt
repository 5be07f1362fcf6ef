// Boxes in which clients and the server leave packets for each other.
#![tactic(auto)]

mod plain;
mod traits;

pub use plain::PlainHub;
pub use traits::{Busy, Homed, Hub, Numbered, Run};

#[cfg(test)]
mod tests;
