// An ordered map whose forks share what neither has changed.
#![tactic(auto)]

mod entries;
mod flags;
mod map;
mod own;
mod place;
mod shelf;

pub use entries::Entries;
pub use map::SharedMap;

#[cfg(test)]
mod tests;
