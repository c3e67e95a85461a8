//! The box of levels in which a flooded ship floats.
#![tactic(auto)]

mod draft_box;
mod floats;
mod inwards;
mod looks;
mod mirror;
mod model;
mod moments;
mod neighbours;
mod reading;
mod secant;
mod settling;
mod ship;
mod starts;
#[cfg(test)]
mod tests;
mod tip;

pub use draft_box::DraftBox;
pub use reading::Corner;
pub use settling::SettleFault;
pub use ship::settle;
pub use tip::Tip;
