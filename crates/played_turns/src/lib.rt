// A step of a client's runner is a step of a played run.
#![tactic(auto)]

mod laws;

pub use laws::steps_are_played;
