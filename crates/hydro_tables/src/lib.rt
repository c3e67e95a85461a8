//! Hydrostatic tables: what a hull displaces at an upright draft, and how stiff it is there.
#![tactic(auto)]

mod centre;
mod divisor;
mod figures;
mod long_division;
mod row;
#[cfg(test)]
mod tests;

pub use row::{HydroRow, hydro_row};
