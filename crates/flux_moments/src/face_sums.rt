// Sums over the columns of faces.
ghost use Rattle.std.specs.Prelude.{◌<◌, ◌*◌, ◌^◌, length, pos};
ghost use Rattle.std.specs.List.{AllByRecursion};
ghost use Rattle.exact_algebra.proofs.Fraction.{Fraction, ◌⊗◌};
ghost use Rattle.exact_algebra.proofs.Span.{ContainsFraction};
ghost use Rattle.exact_algebra.proofs.Whole.{whole};
ghost use Rattle.hull_model.specs.Faces.{IsFace};
ghost use Rattle.hull_model.specs.Fractions.{sum_over};
ghost use Rattle.hull_model.specs.Waterplane.{Waterplane};
ghost use Rattle.hull_polyhedron.specs.Between.{LieBetween};
ghost use Rattle.flux_moments.specs.Columns.{columns_volume, columns_mx, columns_mv, columns_mu};
ghost use Rattle.outward_interval.specs.Widths.{IsNarrow};
ghost use Rattle.flux_moments.specs.ColumnSizes.{AreSumWidths};
ghost use Rattle.flux_moments.specs.Limits.{EndsAtMost};
ghost use Rattle.flux_moments.specs.Planes.{IsIn};
ghost use Rattle.flux_moments.specs.Wets.{AreColumnEnds};
ghost use Rattle.flux_moments.specs.Sizes.{BoxSize, AreReached, spread, doubled_area, volume_part};

use crate::dry::nothing;
use crate::face_columns::{columns, volume_column};
use crate::{PlaneBox, ShipLength, Wet};
use hull_model::Face;
use outward_interval::Span;

/// Twice the volume of the columns of faces.
pub(crate) fn volume_sum(faces: &[Face], planes: &PlaneBox, way: ShipLength) -> Span<20>
    requires limits { AllByRecursion IsFace faces.now }
    requires between { LieBetween way.first way.last faces.now }
    requires few { length faces.now < 2 ^ 14 }
    ensures ends { EndsAtMost (length faces.now * (7 * 2 ^ 75)) result.lo result.hi }
    ensures volume { (plane : Waterplane) → IsIn planes.now plane → ContainsFraction 20 result.lo result.hi (columns_volume plane way.first way.last faces.now ⊗ whole (pos 2)) }
    ensures narrow { (b : BoxSize) (h : Fraction) → AreReached planes.now faces.now b h → IsNarrow 20 (sum_over (λ f. volume_part (spread b h) (doubled_area f)) faces.now) result.lo result.hi }
{
    let mut sum = nothing();
    for face in faces {
        sum = sum + volume_column(face, planes, way);
    }
    sum
}

/// The sums over the columns of faces: twice the volume and the integrals of x and of the side, four times that of the
/// height.
pub(crate) fn column_sums(faces: &[Face], planes: &PlaneBox, way: ShipLength) -> Wet
    requires limits { AllByRecursion IsFace faces.now }
    requires between { LieBetween way.first way.last faces.now }
    requires few { length faces.now < 2 ^ 14 }
    ensures ends { AreColumnEnds (length faces.now) result }
    ensures volume { (plane : Waterplane) → IsIn planes.now plane → ContainsFraction 20 result.volume.lo result.volume.hi (columns_volume plane way.first way.last faces.now ⊗ whole (pos 2)) }
    ensures mx { (plane : Waterplane) → IsIn planes.now plane → ContainsFraction 20 result.mx.lo result.mx.hi (columns_mx plane way.first way.last faces.now ⊗ whole (pos 2)) }
    ensures mv { (plane : Waterplane) → IsIn planes.now plane → ContainsFraction 20 result.mv.lo result.mv.hi (columns_mv plane way.first way.last faces.now ⊗ whole (pos 2)) }
    ensures mu { (plane : Waterplane) → IsIn planes.now plane → ContainsFraction 20 result.mu.lo result.mu.hi (columns_mu plane way.first way.last faces.now ⊗ whole (pos 4)) }
    ensures widths { (b : BoxSize) (h : Fraction) → AreReached planes.now faces.now b h → AreSumWidths (whole way.last) h (spread b h) faces.now result }
{
    let mut sums = Wet::nothing();
    for face in faces {
        sums = sums + columns(face, planes, way);
    }
    sums
}
