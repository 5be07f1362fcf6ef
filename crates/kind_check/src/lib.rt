// Checking a source against the rules of kinds, and its typed program.
#![tactic(auto)]

mod clients;
mod parts;
mod schedule;
mod source;
#[cfg(test)]
mod tests;

pub use kind_bodies::KindFault;
pub use source::{check, one_answer};
pub use typed_program::{Parts, Program};
