// The ship.
use hull_model::{Station, Water};
use hull_polyhedron::Faces;
use loading_sheet::Loading;

/// A hull by its stations and its faces, with its load, in its water, and its margin in mm.
#[derive(Clone, Copy, Drop)]
pub(crate) struct Ship<'a> {
    pub(crate) stations: &'a [Station],
    pub(crate) faces: &'a Faces,
    pub(crate) loading: &'a Loading,
    pub(crate) water: &'a Water,
    pub(crate) margin: u32,
}
