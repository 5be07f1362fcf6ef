// A serve of a client is a serve of a played run.
#![tactic(auto)]

mod laws;

pub use laws::serves_are_played;
