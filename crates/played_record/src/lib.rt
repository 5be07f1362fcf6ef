// What a played run is: its record, by the traces of the clients, a schedule and the fates of
// pushes.
#![tactic(auto)]

mod laws;

pub use cloud_base::{Batch, BatchList, End, Schedule, Tail};
pub use laws::{
    moments_of_played_runs, played_runs_end, programs_are_traced, records_of_played_runs,
    steps_and_serves,
};
