// One client: the machine that runs its code, and its session.
#![tactic(auto)]

mod client;
mod laws;
mod runner;
mod stepped;

pub use laws::needs_come_in_order;
pub use runner::Runner;
pub use stepped::Stepped;
