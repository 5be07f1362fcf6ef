// A grid of cells, by property and keys, over any cell that forks and joins.
#![tactic(auto)]

mod cell;
mod effect;
mod grid;
mod laws;

pub use cell::Cell;
pub use effect::{CellEffect, EffectList};
pub use grid::Grid;
pub use laws::cell_orders;

#[cfg(test)]
mod tests;
