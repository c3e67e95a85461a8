// The columns between a face and an upright plane.
ghost use Rattle.std.specs.Prelude.{◌≡◌, ◌*◌, ◌^◌, ◌≤ℤ◌, pos, neg_ℤ, unsigned_abs};
ghost use Rattle.std.specs.List.{AllByRecursion};
ghost use Rattle.exact_algebra.proofs.Fraction.{Fraction, one, ◌⊗◌, ◌≼◌};
ghost use Rattle.exact_algebra.proofs.Span.{ContainsFraction};
ghost use Rattle.exact_algebra.proofs.Whole.{whole};
ghost use Rattle.hull_model.specs.Faces.{IsFace};
ghost use Rattle.hull_model.specs.Nodes.{IsNode};
ghost use Rattle.hull_model.specs.Waterplane.{Waterplane};
ghost use Rattle.outward_interval.specs.Ends.{EndsBelow};
ghost use Rattle.outward_interval.specs.Widths.{IsNarrow};
ghost use Rattle.flux_moments.specs.Columns.{column_volume, column_integral};
ghost use Rattle.flux_moments.specs.Limits.{EndsAtMost, EndsLess};
ghost use Rattle.flux_moments.specs.Planes.{IsIn, AreLevelEnds};
ghost use Rattle.flux_moments.specs.Sizes.{BoxSize, HasSize, Reaches, spread, doubled_area, volume_part, length_part};
ghost use Rattle.compartment_loss.specs.Upright.{IsUpright};

use crate::UprightWet;
use crate::upright::{Known, depth_of};
use flux_moments::{PlaneBox, ShipLength, are_dry};
use hull_model::{Face, Node};
use outward_interval::Span;
use plane_clip::wet_depths;

/// What is known of a column, and the places of its corners.
#[derive(Clone, Copy)]
pub(crate) struct KnownColumn {
    pub(crate) wet: UprightWet,
    pub(crate) known: Known,
}

/// Twice the volume of the column between the wet part of a face and an upright plane, and twice the integral of x over
/// it, with their signs. A face that is seen edgewise from above has none.
pub(crate) fn column(face: &Face, planes: &PlaneBox, way: ShipLength, known: Known) -> KnownColumn
    requires face { IsFace face.now }
    requires between { AllByRecursion (λ n. (way.first ≤ℤ n.x) × (n.x ≤ℤ way.last)) face.now.p }
    requires upright { IsUpright planes.now }
    requires near { AreLevelEnds planes.now way.first way.last known.near.x known.near.level.lo known.near.level.hi }
    requires far { AreLevelEnds planes.now way.first way.last known.far.x known.far.level.lo known.far.level.hi }
    ensures near { AreLevelEnds planes.now way.first way.last result.known.near.x result.known.near.level.lo result.known.near.level.hi }
    ensures far { AreLevelEnds planes.now way.first way.last result.known.far.x result.known.far.level.lo result.known.far.level.hi }
    ensures volume_ends { EndsAtMost (2 ^ 79) result.wet.volume.lo result.wet.volume.hi }
    ensures mx_ends { EndsAtMost (3 * 2 ^ 97) result.wet.mx.lo result.wet.mx.hi }
    ensures volume { (plane : Waterplane) → IsIn planes.now plane → ContainsFraction 20 result.wet.volume.lo result.wet.volume.hi (column_volume plane way.first way.last face.now ⊗ whole (pos 2)) }
    ensures mx { (plane : Waterplane) → IsIn planes.now plane → ContainsFraction 20 result.wet.mx.lo result.wet.mx.hi (column_integral plane way.first way.last (λ p. p.x) face.now ⊗ whole (pos 2)) }
    ensures volume_width { (b : BoxSize) (h : Fraction) → HasSize planes.now b → one ≼ h → AllByRecursion (Reaches b h) face.now.p → IsNarrow 20 (volume_part (spread b h) (doubled_area face.now)) result.wet.volume.lo result.wet.volume.hi }
    ensures mx_width { (b : BoxSize) (h : Fraction) → HasSize planes.now b → one ≼ h → AllByRecursion (Reaches b h) face.now.p → IsNarrow 20 (length_part (whole way.last) (spread b h) (doubled_area face.now)) result.wet.mx.lo result.wet.mx.hi }
{
    if face.az == 0 {
        KnownColumn {
            wet: nothing(),
            known,
        }
    } else {
        seen_column(face, planes, way, known)
    }
}

/// The same of any face. A dry one has none.
fn seen_column(face: &Face, planes: &PlaneBox, way: ShipLength, known: Known) -> KnownColumn
    requires face { IsFace face.now }
    requires between { AllByRecursion (λ n. (way.first ≤ℤ n.x) × (n.x ≤ℤ way.last)) face.now.p }
    requires upright { IsUpright planes.now }
    requires near { AreLevelEnds planes.now way.first way.last known.near.x known.near.level.lo known.near.level.hi }
    requires far { AreLevelEnds planes.now way.first way.last known.far.x known.far.level.lo known.far.level.hi }
    ensures near { AreLevelEnds planes.now way.first way.last result.known.near.x result.known.near.level.lo result.known.near.level.hi }
    ensures far { AreLevelEnds planes.now way.first way.last result.known.far.x result.known.far.level.lo result.known.far.level.hi }
    ensures volume_ends { EndsAtMost (2 ^ 79) result.wet.volume.lo result.wet.volume.hi }
    ensures mx_ends { EndsAtMost (3 * 2 ^ 97) result.wet.mx.lo result.wet.mx.hi }
    ensures volume { (plane : Waterplane) → IsIn planes.now plane → ContainsFraction 20 result.wet.volume.lo result.wet.volume.hi (column_volume plane way.first way.last face.now ⊗ whole (pos 2)) }
    ensures mx { (plane : Waterplane) → IsIn planes.now plane → ContainsFraction 20 result.wet.mx.lo result.wet.mx.hi (column_integral plane way.first way.last (λ p. p.x) face.now ⊗ whole (pos 2)) }
    ensures volume_width { (b : BoxSize) (h : Fraction) → HasSize planes.now b → one ≼ h → AllByRecursion (Reaches b h) face.now.p → IsNarrow 20 (volume_part (spread b h) (doubled_area face.now)) result.wet.volume.lo result.wet.volume.hi }
    ensures mx_width { (b : BoxSize) (h : Fraction) → HasSize planes.now b → one ≼ h → AllByRecursion (Reaches b h) face.now.p → IsNarrow 20 (length_part (whole way.last) (spread b h) (doubled_area face.now)) result.wet.mx.lo result.wet.mx.hi }
{
    let [p, q, r] = face.p;
    let at_p = known.with(planes, way, p.x);
    let at_q = at_p.with(planes, way, q.x);
    let at_r = at_q.with(planes, way, r.x);
    let first = depth_of(at_p.near, p);
    let second = depth_of(at_q.near, q);
    let third = depth_of(at_r.near, r);
    let depths = [first, second, third];
    if are_dry(&depths) {
        return KnownColumn {
            wet: nothing(),
            known: at_r,
        };
    }
    let means = wet_depths(depths);
    let moment = at_place(means.weighted[0], p)
        + at_place(means.weighted[1], q)
        + at_place(means.weighted[2], r);
    let factor = factor_of(face);
    KnownColumn {
        wet: UprightWet {
            volume: means.depth.times_whole(factor),
            mx: moment.times_whole(factor),
        },
        known: at_r,
    }
}

/// A mean times the place of a corner.
fn at_place(mean: Span<20>, node: Node) -> Span<20>
    requires mean { EndsBelow 41 mean.lo mean.hi }
    requires node { IsNode node }
    ensures ends { EndsLess (2 ^ 60) result.lo result.hi }
    ensures contains { (m : Fraction) → ContainsFraction 20 mean.lo mean.hi m → ContainsFraction 20 result.lo result.hi (m ⊗ whole node.x) }
    ensures narrow { (w : Fraction) → IsNarrow 20 w mean.lo mean.hi → IsNarrow 20 (w ⊗ whole (pos (unsigned_abs node.x))) result.lo result.hi }
{
    mean.times_whole(i128::from(node.x))
}

/// Twice the area of a face as it is seen from below.
fn factor_of(face: &Face) -> i128
    requires { IsFace face.now }
    ensures { result ≡ neg_ℤ face.now.az }
{
    -i128::from(face.az)
}

/// No volume.
pub(crate) fn nothing() -> UprightWet
    ensures volume { (result.volume.lo ≡ pos 0) × (result.volume.hi ≡ pos 0) }
    ensures mx { (result.mx.lo ≡ pos 0) × (result.mx.hi ≡ pos 0) }
{
    match Span::new(0, 0) {
        Some(none) => UprightWet {
            volume: none,
            mx: none,
        },
        None => unreachable!(),
    }
}
