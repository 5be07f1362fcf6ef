// Packets as bytes: the one spelling of each, and the first fault of bytes that are none.
#![tactic(auto)]

mod cursor;
mod element;
mod fault;
mod field;
mod header;
mod laws;
mod list;
mod packet;
mod wire;
mod write;

pub use fault::{ReadFault, WireFault};
pub use laws::{faults_are_first, packets_are_read, spellings_are_apart};
pub use packet::{read, write_push, write_reply};
pub use wire::Wire;

#[cfg(test)]
mod tests;
