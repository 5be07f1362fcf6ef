// A client's session with the server.
#![tactic(auto)]

mod events;
mod flushing;
mod inbox;
mod laws;
mod outbox;
mod running;
mod session;
mod steps;
mod turns;

pub use flushing::Flushing;
pub use laws::events_come_last;
pub use session::Session;
pub use turns::{Half, Pull, PushOut, Starved, Turn, Yielded};
