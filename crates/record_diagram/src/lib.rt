// The steps of a record, and that they are one lawful diagram.
#![tactic(auto)]

mod laws;

pub use laws::{records_are_diagrams, steps_of_records};
