//! Means over the wet part of a triangle, enclosed.
#![tactic(auto)]

mod clip;
mod clipping;
mod corner;
mod depths;
mod laws;
mod means;
mod part;
mod parts;
mod rounding;
mod shares;
mod span_face;
#[cfg(test)]
mod tests;
mod triangle;
mod way;

pub use clipping::parts_of;
pub use corner::PartCorner;
pub use laws::what_is_clipped_makes_up_the_parts;
pub use part::Part;
pub use span_face::{SpanFace, between};
pub use triangle::{WetDepths, WetShare, wet, wet_depths};
