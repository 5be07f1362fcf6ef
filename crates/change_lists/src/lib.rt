// What a log after a log did, and what a log comes to, as lists in order: what packets carry.
#![tactic(auto)]

mod ascending;
mod change;
mod image;
mod laws;
mod value;

pub use change::Change;
pub use image::Image;
pub use laws::{one_effect, one_image, total_list_orders};
pub use value::{CellValue, Content, ValueList};

#[cfg(test)]
mod tests;
