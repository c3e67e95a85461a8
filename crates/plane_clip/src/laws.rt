// Theorems about the definitions, each the contract of a function with an empty body.
ghost use Rattle.std.specs.Prelude.{ℤ};
ghost use Rattle.hull_model.specs.FaceParts.{parts_between};
ghost use Rattle.hull_model.specs.TriangleCut.{Triangle};
ghost use Rattle.hull_model.specs.TriangleSums.{MakeUpTheSame};
ghost use Rattle.hull_model.specs.Waterplane.{Position};
ghost use Rattle.plane_clip.specs.Clipped.{clipped};

/// The triangles that a triangle is clipped to between two places along the ship make up the same as the pieces that
/// it is cut into there.
pub fn what_is_clipped_makes_up_the_parts()
    ensures { (aft fore : ℤ) (t : Triangle Position) → MakeUpTheSame (clipped aft fore t) (parts_between aft fore t) }
{}
