// Theorems about the definitions, each the contract of a function with an empty body.
ghost use Rattle.dynamic_lever.specs.Levers.{SidesAreEqual, SidesAreMirrorImages};

/// A loading whose centre is on the centreplane has the same levers to both sides.
#[tactic(auto, using(crate::proofs::Sides::sides_are_equal))]
pub fn sides_are_equal()
    ensures { SidesAreEqual }
{}

/// The levers to starboard are those to port of a loading with the opposite moment about the centreplane.
#[tactic(auto, using(crate::proofs::Sides::sides_are_mirror_images))]
pub fn sides_are_mirror_images()
    ensures { SidesAreMirrorImages }
{}
