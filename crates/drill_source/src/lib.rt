// The text of a drill is an accepted source.
#![tactic(auto)]

mod laws;

pub use laws::drills_are_sources;
