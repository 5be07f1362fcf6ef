// Canonical texts and parsing.
#![tactic(auto)]

mod laws;

pub use laws::print_parses;
