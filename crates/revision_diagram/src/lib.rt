// Revision diagrams.
#![tactic(auto)]

mod flush;
mod laws;
mod step;

pub use flush::{flush_law, flush_step, newest_step};
pub use laws::{
    act_draws, ask_draws, client_step, do_draws, fork_draws, join_draws, lawful_step, line_step,
    mark_draws, meeting_step, once_step, owners_step, path_lengths, paths_apart,
    revisions_are_there, right_step, say_draws, step_draws, step_keeps, step_leaves, story_step,
};
pub use step::{EndList, Step, StepList};
