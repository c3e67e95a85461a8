//! The criteria of intact stability: marks and a verdict over all choices of waterplanes.
#![tactic(auto)]

mod areas;
mod both;
mod brackets;
mod c1;
mod c2;
mod c3;
mod c4;
mod c5;
mod c6;
mod depth;
mod finding;
mod flooding;
mod judgement;
mod laws;
mod leaks;
mod levers;
mod limit;
mod readings;
#[cfg(test)]
mod tests;

pub use areas::area;
pub use finding::{Finding, Findings, Found, Mark, Shown, Side, Verdict};
pub use judgement::judge;
pub use laws::{
    areas_hold_at_every_choice, depths_are_narrow, marks_are_decided, rows_are_narrow, rows_suffice,
};
pub use readings::{arm_at, gz};
