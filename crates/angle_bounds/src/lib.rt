//! Directions of waterplanes by whole numbers, and brackets of them with spans of cosine and sine.
#![tactic(auto)]

mod bracket;
mod degree;
mod laws;
mod numbers;
#[cfg(test)]
mod tests;
mod triple;

pub use bracket::{Bracket, bracket_of, exact, leaf};
pub use degree::Degree;
pub use laws::{
    degrees_rise, directions_are_ordered, numbers_part_degrees, numbers_rise, numbers_stand_apart,
    powers_are_counted, spans_are_least, spans_contain_each_direction,
};
pub use numbers::number_of;
pub use triple::Triple;
