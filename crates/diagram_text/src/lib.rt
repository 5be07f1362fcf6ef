// The diagram of a record, and its report.
#![tactic(auto)]

mod agenda;
mod diagram;
mod draw;
mod history;
mod laws;
mod pen;
mod sink;

pub use diagram::{build, report};
pub use history::{Record, TailList};
pub use laws::{
    drawings_stay_small, programs_are_legible, reports_are_diagrams, reports_tell_records,
    runs_are_shaped,
};

#[cfg(test)]
mod tests;
