// The instructions of a stack machine, valid codes and their listings.
#![tactic(auto)]

mod code;
mod instruction;
mod laws;
mod listing;

pub use code::Code;
pub use instruction::{Binary, Instruction, Instructions, Literal};
pub use laws::{runs_add_up, silent_instructions_end, valid_codes_are_never_stuck};
pub use listing::print_code;

#[cfg(test)]
mod tests;
