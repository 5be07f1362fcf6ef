// When a client's batch can be joined to a record, and what a client may join to a longer one.
#![tactic(auto)]

mod laws;

pub use laws::{fronts_of_one_record, next_batches_join, own_batches_alone, own_updates_join};
