// The server of a run, its weather and its station.
#![tactic(auto)]

mod server;
mod station;
mod weather;

pub use cloud_base::Fate;
pub use server::{NoRoom, Server};
pub use station::{Served, Station};
pub use weather::{Fair, Storm, Weather};

#[cfg(test)]
mod tests;
