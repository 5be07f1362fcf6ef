// The canonical text of programs.
#![tactic(auto)]

mod declaration;
mod expression;
mod laws;
mod printer;
mod statement;
mod value;

pub use laws::printed_spells;
pub use printer::{print, print_program};
