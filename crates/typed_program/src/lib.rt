// The typed program of a checked source, and what each of its clients does for the answers that it
// gets.
#![tactic(auto)]

mod expression;
mod laws;
mod program;
mod statement;

pub use expression::{Expression, Kind, Operator};
pub use laws::{
    answers_extend, bodies_are_shaped, events_are_bounded, events_grow, kinds_are_told,
    loops_begin_anew,
};
pub use program::{Parts, Program};
pub use statement::{Body, Operation, Statement};
