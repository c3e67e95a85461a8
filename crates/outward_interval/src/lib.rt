//! Intervals that are rounded outwards, and the printed figures made of them.
#![tactic(auto)]

mod against;
mod decimal;
mod division;
mod encloses;
mod figure;
mod operators;
mod products;
mod residual;
mod rounding;
mod span;
mod steps;

pub use decimal::decimal_out;
pub use encloses::Encloses;
pub use figure::Figure;
pub use operators::join_spans;
pub use residual::excess;
pub use span::Span;

#[cfg(test)]
mod tests;
