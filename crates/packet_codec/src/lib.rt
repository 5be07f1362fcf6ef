// Pushes and replies, which keep by their types what they tell.
#![tactic(auto)]

mod fronts;
mod laws;
mod push;
mod reply;

pub use fronts::Fronts;
pub use laws::{
    bounded_records, next_batches_are_pushed, packets_are_spelled, pushes_are_taken,
    replies_are_pulled, served_records,
};
pub use packet_bytes::{ReadFault, Wire, WireFault, read, write_push, write_reply};
pub use push::Push;
pub use reply::Reply;

#[cfg(test)]
mod tests;
