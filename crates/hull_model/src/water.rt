// The water that the ship floats in.
ghost use Rattle.hull_model.specs.Limits.{IsWater};

/// The density of the water, and the length that the moment to change trim is taken over.
///
/// `density` is in kg per m³, from 500 to 2000. `length_bp` is the length between perpendiculars in whole
/// mm, from 1 to 524287.
#[derive(Clone, Copy, Debug, PartialEq, Eq)]
pub struct Water {
    pub density: u32,
    pub length_bp: u32,
    ghost limits: { IsWater density length_bp },
}
