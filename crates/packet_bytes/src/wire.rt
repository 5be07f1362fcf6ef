// A packet as a value.
use change_lists::{Change, Image};

/// A packet: what a client pushes, or what it gets back.
///
/// The client is below 8, the round counts its pushes from 1, and the base is how many batches the
/// server had when it answered the round before, or when it made the reply.
#[derive(Drop)]
pub enum Wire {
    Push {
        client: u8,
        round: u64,
        base: u64,
        change: Change,
    },
    Reply {
        client: u8,
        round: u64,
        base: u64,
        image: Image,
    },
}
