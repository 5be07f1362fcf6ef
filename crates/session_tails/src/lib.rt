// What sessions leave that are over.
#![tactic(auto)]

mod laws;

pub use laws::sessions_leave_records;
