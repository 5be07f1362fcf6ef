// The moments of a run of sessions and a server, and those of a played run.
#![tactic(auto)]

mod laws;

pub use laws::runs_begin;
