// What the record of a run is: the batches of a server, the tails of its clients and their ends.
#![tactic(auto)]

mod laws;

pub use cloud_base::{Batch, BatchList, End, Tail};
pub use laws::{bases_above_rounds, fronts_of_records};
