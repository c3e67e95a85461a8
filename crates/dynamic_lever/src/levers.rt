// Levers to both sides.
ghost use Rattle.std.specs.Prelude.{ℕ, ◌+◌, ◌*◌, ◌^◌, List};
ghost use Rattle.exact_algebra.proofs.Fraction.{Fraction, ◌⊗◌};
ghost use Rattle.exact_algebra.proofs.Span.{ContainsFraction};
ghost use Rattle.hull_model.specs.declared.station.Station.{Station};
ghost use Rattle.hull_model.specs.Body.{IsHull};
ghost use Rattle.hull_model.specs.Waterplane.{Waterplane};
ghost use Rattle.hull_polyhedron.specs.FacesOf.{AreFacesOf};
ghost use Rattle.outward_interval.specs.Ends.{EndsBelow};
ghost use Rattle.outward_interval.specs.Widths.{IsNarrow};
ghost use Rattle.flux_moments.specs.Limits.{EndsAtMost};
ghost use Rattle.flux_moments.specs.Planes.{HasDirectionIn, IsIn};
ghost use Rattle.flux_moments.specs.Widths.{size_of, reach_of, volume_bound};
ghost use Rattle.dynamic_lever.specs.Levers.{gz, gz_by, separation, separation_by, lever_bound};
ghost use Rattle.dynamic_lever.specs.Sides.{OnSides, OnBoth, AreSmallLevers};

use crate::centre::{height_of_centre, side_of_centre};
use crate::quotient::over_volume;
use angle_bounds::Bracket;
use flux_moments::{PlaneBox, Wet, measure};
use hull_model::Water;
use hull_polyhedron::Faces;
use loading_sheet::Loading;
use outward_interval::Span;

/// Righting levers and separations in mm, each to port and then to starboard.
#[derive(Clone, Copy, Debug, PartialEq, Eq)]
pub(crate) struct Levers {
    /// How far buoyancy acts beside weight, towards the side that is heeled to.
    pub(crate) gz: [Span<20>; 2],
    /// How far the centre of the loading lies above the centre of buoyancy, square to the direction.
    pub(crate) sep: [Span<20>; 2],
}

/// Encloses the levers of a loading to both sides, at every plane of a box. The faces are the hull's boundary.
///
/// A plane heels the ship to port, where y is below 0; the levers to starboard are those of the ship's mirror image. No
/// span is wider than what was measured may be, over the displaced volume, and the centre's distance from the centreplane
/// and its height, together, times the width of the box's cosine and sine, and 2^-16 mm. The ends lie below 2^95 in
/// magnitude.
pub(crate) fn levers_in(
    faces: &Faces,
    planes: &PlaneBox,
    loading: &Loading,
    water: &Water,
) -> Levers
    ensures gz { (stations : List Station) → IsHull stations → AreFacesOf stations faces.now → (plane : Waterplane) → IsIn planes.now plane → OnSides (λ side s. ContainsFraction 20 s.lo s.hi (gz loading.now water.now plane stations side)) result.gz }
    ensures sep { (stations : List Station) → IsHull stations → AreFacesOf stations faces.now → (plane : Waterplane) → IsIn planes.now plane → OnSides (λ side s. ContainsFraction 20 s.lo s.hi (separation loading.now water.now plane stations side)) result.sep }
    ensures gz_width { OnBoth (λ s. IsNarrow 20 (lever_bound loading.now water.now (reach_of faces.now planes.now ⊗ volume_bound faces.now planes.now) (size_of planes.now).turn) s.lo s.hi) result.gz }
    ensures gz_ends { AreSmallLevers result.gz }
    ensures sep_ends { AreSmallLevers result.sep }
    ensures sep_width { OnBoth (λ s. IsNarrow 20 (lever_bound loading.now water.now (reach_of faces.now planes.now ⊗ volume_bound faces.now planes.now) (size_of planes.now).turn) s.lo s.hi) result.sep }
{
    let below = measure(faces, planes);
    levers_of(&below, &planes.bracket, loading, water)
}

fn levers_of(below: &Wet, bracket: &Bracket, loading: &Loading, water: &Water) -> Levers
    requires mv { EndsBelow 113 below.now.mv.lo below.now.mv.hi }
    requires mu { EndsBelow 113 below.now.mu.lo below.now.mu.hi }
    ensures gz { (plane : Waterplane) (mv : Fraction) → HasDirectionIn bracket.now plane → ContainsFraction 20 below.now.mv.lo below.now.mv.hi mv → OnSides (λ side s. ContainsFraction 20 s.lo s.hi (gz_by loading.now water.now plane mv side)) result.gz }
    ensures sep { (plane : Waterplane) (mu : Fraction) → HasDirectionIn bracket.now plane → ContainsFraction 20 below.now.mu.lo below.now.mu.hi mu → OnSides (λ side s. ContainsFraction 20 s.lo s.hi (separation_by loading.now water.now plane mu side)) result.sep }
    ensures gz_ends { (most : ℕ) → EndsAtMost (most * 500000) below.now.mv.lo below.now.mv.hi → OnBoth (λ s. EndsAtMost (most + 2 ^ 77) s.lo s.hi) result.gz }
    ensures sep_ends { (most : ℕ) → EndsAtMost (most * 500000) below.now.mu.lo below.now.mu.hi → OnBoth (λ s. EndsAtMost (2 ^ 77 + most) s.lo s.hi) result.sep }
    ensures gz_width { (w e : Fraction) → IsNarrow 20 w below.now.mv.lo below.now.mv.hi → IsNarrow 40 e bracket.now.c.lo bracket.now.c.hi → IsNarrow 40 e bracket.now.s.lo bracket.now.s.hi → OnBoth (λ s. IsNarrow 20 (lever_bound loading.now water.now w e) s.lo s.hi) result.gz }
    ensures sep_width { (w e : Fraction) → IsNarrow 20 w below.now.mu.lo below.now.mu.hi → IsNarrow 40 e bracket.now.c.lo bracket.now.c.hi → IsNarrow 40 e bracket.now.s.lo bracket.now.s.hi → OnBoth (λ s. IsNarrow 20 (lever_bound loading.now water.now w e) s.lo s.hi) result.sep }
{
    let kn = over_volume(below.mv, loading, water);
    let kb = over_volume(below.mu, loading, water);
    let (port, starboard) = (loading.my, -loading.my);
    Levers {
        gz: [
            kn - side_of_centre(bracket, loading, port),
            kn - side_of_centre(bracket, loading, starboard),
        ],
        sep: [
            height_of_centre(bracket, loading, port) - kb,
            height_of_centre(bracket, loading, starboard) - kb,
        ],
    }
}
