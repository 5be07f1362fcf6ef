// What names stand for at a place of a source.
#![tactic(auto)]

mod declared;
mod index;
mod names;
mod variables;

pub use declared::Declared;
pub use names::{is_among, is_repeated};
pub use variables::Variables;
