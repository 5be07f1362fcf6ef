// How much the clients of a played run do at most.
#![tactic(auto)]

mod laws;

pub use laws::{clients_do_little, records_stay_small, rounds_stay_few};
