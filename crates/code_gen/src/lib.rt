// From the body of a typed program to its code.
#![tactic(auto)]

mod compiler;
mod emitter;
mod expression;
mod laws;
mod lister;
mod statement;

pub use compiler::compile;
pub use laws::{codes_are_valid, codes_mean_bodies};
pub use lister::listing;

#[cfg(test)]
mod tests;
