// What the version of a job changes in its reports.
ghost use Rattle.std.specs.Prelude.{◌≡◌};
ghost use Rattle.hull_cli.specs.Sides as spec;

/// Whether reports tell port from starboard. In a job of version 1 all items stand on the centreplane, and both sides have the
/// same figures.
pub(crate) fn tells_sides(version: u32) -> bool
    ensures { result ≡ spec.tells_sides version }
{
    version == 2
}
