// The text of steps and of clients' ends, as the lines of a report.
#![tactic(auto)]

mod cell;
mod laws;
mod step_line;
mod text;
mod value;

pub use laws::reports_tell_steps;
pub use revision_diagram::{Step, StepList};
pub use text::{answer_text, end_text, lines, query_text, step_text, update_text};

#[cfg(test)]
mod tests;
