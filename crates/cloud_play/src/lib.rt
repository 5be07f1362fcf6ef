// The clients of a program, its server, and the boxes between them, on one thread.
#![tactic(auto)]

mod opening;
mod player;
mod program;

pub use opening::{compile_all, open_all};
pub use player::{Nobody, Player};
pub use program::run;
