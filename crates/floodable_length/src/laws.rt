// Laws of margin lines: each function has an empty body, and its contract is the theorem.
ghost use Rattle.floodable_length.specs.MarginLaw.{UnderByLevels};

/// A station's margin point is under an upright plane exactly where the plane's level there, in mm, is above the height of
/// its top point less the margin.
#[tactic(auto, using(crate::proofs::LevelLaw::under_by_levels))]
pub fn margin_points_compare_by_levels()
    ensures { UnderByLevels }
{}
