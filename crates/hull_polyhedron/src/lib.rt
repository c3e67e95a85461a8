//! The boundary of the body: the faces of its tetrahedra that don't cancel, and the central law over them.
#![tactic(auto)]

mod boundary;
mod calls;
mod extent;
mod face_list;
mod faces;
mod laws;
mod part;
mod strips;
#[cfg(test)]
mod tests;
mod totals;

pub use calls::{faces_of, six_volume};
pub use face_list::FaceList;
pub use faces::Faces;
pub use laws::{
    columns_are_known_by_means, corners_decide_the_sides, hulls_are_summed_by_columns,
    lids_are_summed_by_faces, signed_faces_point_outwards, slabs_are_summed_by_columns,
    solids_are_summed_by_faces, strips_are_summed_by_columns, tetrahedra_are_summed_by_columns,
    what_is_left_rises_with_the_levels,
};
pub use totals::Totals;
