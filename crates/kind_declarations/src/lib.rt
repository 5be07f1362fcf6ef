// Checking the declarations of a source against the rules of kinds, and the schema that they give.
#![tactic(auto)]

mod check;
mod rules;
mod schema;
#[cfg(test)]
mod tests;

pub use check::check_declarations;
