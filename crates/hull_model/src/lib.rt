//! The body: stations of points, and the facts that every hull keeps.
#![tactic(auto)]

mod face;
mod hull;
mod laws;
mod node;
mod opening;
mod point;
mod slab;
mod station;
mod strip_triangle;
mod tet;
mod vector;
mod water;
mod zipper;

pub use face::Face;
pub use hull::Hull;
pub use laws::{
    balanced_lists_have_equal_sums, no_edge_is_left_to_split, nothing_is_left_to_split,
    wet_depth_rises_by_at_most_the_greatest_rise, wet_means_obey_the_laws, wet_means_rise,
    worked_values,
};
pub use node::Node;
pub use opening::Opening;
pub use point::Point;
pub use slab::Slab;
pub use station::{Points, Station};
pub use strip_triangle::StripTriangle;
pub use tet::{Tet, six_of, tets_of};
pub use vector::Vector;
pub use water::Water;
pub use zipper::triangles_between;

#[cfg(test)]
mod tests;
