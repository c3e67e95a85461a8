// The lid: the part of a level plane that closes the body below it.
ghost use Rattle.std.specs.Prelude.{◌≡◌, ◌<◌, ◌^◌, ◌+◌, ◌*◌, ◌≤ℤ◌, ◌*ℤ◌, ℕ, ℤ, List, [], ◌∷◌, length, pos, neg_ℤ, unsigned_abs};
ghost use Rattle.std.specs.List.{AllByRecursion};
ghost use Rattle.exact_algebra.proofs.Fraction.{Fraction, one, ◌⊕◌, ◌⊗◌, ◌≼◌};
ghost use Rattle.exact_algebra.proofs.Span.{ContainsFraction};
ghost use Rattle.exact_algebra.proofs.Whole.{whole};
ghost use Rattle.exact_fraction.specs.Bounds.{MagnitudeBelow};
ghost use Rattle.hull_model.specs.declared.station.Station.{Station};
ghost use Rattle.hull_model.specs.Body.{IsHull};
ghost use Rattle.hull_model.specs.Faces.{IsFace};
ghost use Rattle.hull_model.specs.Lid as model;
ghost use Rattle.hull_model.specs.Waterplane.{upright};
ghost use Rattle.hull_polyhedron.specs.Between.{LieBetween, IsInside, LieInside};
ghost use Rattle.hull_polyhedron.specs.FacesOf.{AreFacesOf};
ghost use Rattle.hull_polyhedron.specs.StripLaw.{strip_lid};
ghost use Rattle.hull_polyhedron.specs.Strips.{strip_at};
ghost use Rattle.hull_polyhedron.specs.StripsOf.{strip_count, strip_faces};
ghost use Rattle.outward_interval.specs.Ends.{EndsBelow};
ghost use Rattle.outward_interval.specs.Widths.{units, IsNarrow};
ghost use Rattle.outward_interval.specs.declared.span.Span as span;
ghost use Rattle.plane_clip.specs.Enclosure.{Each, EnclosesMean, IsNoWider, CornerDepths, AreWithin, corner_means, pair_means};
ghost use Rattle.flux_moments.specs.Columns.{lid_part, lid_parts, linear_at, square_at};
ghost use Rattle.flux_moments.specs.Limits.{AreLevels, EndsAtMost, EndsLess};
ghost use Rattle.flux_moments.specs.LidWidths.{IsNoLid, AreLidEnds, AreSeenWidths, AreLidWidths, rise_between};
ghost use Rattle.flux_moments.specs.Planes.{IsIn};
ghost use Rattle.flux_moments.specs.Sizes.{IsLevelBox};
ghost use Rattle.flux_moments.specs.Widths.{lid_bound};

use crate::corner::depth_of;
use crate::dry::{are_dry, nothing};
use crate::strip_sums::length_of;
use crate::water::{Water, water_of};
use crate::{PlaneBox, ShipLength};
use hull_model::Face;
use hull_polyhedron::Faces;
use outward_interval::Span;
use plane_clip::wet;

/// The area of a lid in mm², and the integrals over it: of x in mm³, of y² and of x² in mm⁴.
#[derive(Clone, Copy, Debug, PartialEq, Eq)]
pub struct LidSums {
    pub area: Span<20>,
    pub sx: Span<20>,
    pub syy: Span<20>,
    pub sxx: Span<20>,
}

impl LidSums {
    /// No lid.
    fn nothing() -> LidSums
        ensures { IsNoLid result }
    {
        let none = nothing();
        LidSums {
            area: none,
            sx: none,
            syy: none,
            sxx: none,
        }
    }
}

/// EnclosesMean the area of a hull's lid and the integrals over it, for each upright level plane from `d1` to `d2`, in grid
/// units of 1/1024 mm. The faces are the hull's boundary.
///
/// The lid is the part of the plane that closes the body below it: a deck in the plane is part of it, a bottom in the
/// plane isn't. The levels are at most 2^30 in magnitude.
///
/// The area is no wider than B, the sum over the faces of half of |az| times the rise of the wet share from `d1` to
/// `d2` and 2^-32, with 2^-18 mm² for each face. `sx` is no wider than the last x times B, `syy` than the half-breadth
/// squared times B, and `sxx` than the last x squared times B.
///
/// The ends lie below 2^71 units of 2^-20 in magnitude for the area, below 2^92 for `sx`, and below 2^113 for `syy` and
/// `sxx`. One pass over the strips that are neither dry nor under water at all levels: each of their faces gives what is
/// seen of its wet part from above, and a face that points downwards adds what one that points upwards takes away.
pub fn lid(faces: &Faces, d1: i64, d2: i64) -> LidSums
    requires levels { AreLevels d1 d2 d1 d2 }
    ensures area { (stations : List Station) → IsHull stations → AreFacesOf stations faces.now → (at : Fraction) → ContainsFraction 10 d1 d2 at → ContainsFraction 20 result.area.lo result.area.hi (model.lid_area at stations) }
    ensures sx { (stations : List Station) → IsHull stations → AreFacesOf stations faces.now → (at : Fraction) → ContainsFraction 10 d1 d2 at → ContainsFraction 20 result.sx.lo result.sx.hi (model.lid_x at stations) }
    ensures syy { (stations : List Station) → IsHull stations → AreFacesOf stations faces.now → (at : Fraction) → ContainsFraction 10 d1 d2 at → ContainsFraction 20 result.syy.lo result.syy.hi (model.lid_yy at stations) }
    ensures sxx { (stations : List Station) → IsHull stations → AreFacesOf stations faces.now → (at : Fraction) → ContainsFraction 10 d1 d2 at → ContainsFraction 20 result.sxx.lo result.sxx.hi (model.lid_xx at stations) }
    ensures area_ends { EndsBelow 71 result.area.lo result.area.hi }
    ensures sx_ends { EndsBelow 92 result.sx.lo result.sx.hi }
    ensures syy_ends { EndsBelow 113 result.syy.lo result.syy.hi }
    ensures sxx_ends { EndsBelow 113 result.sxx.lo result.sxx.hi }
    ensures area_width { IsNarrow 20 (lid_bound faces.now d1 d2) result.area.lo result.area.hi }
    ensures sx_width { IsNarrow 20 (whole faces.now.last_x ⊗ lid_bound faces.now d1 d2) result.sx.lo result.sx.hi }
    ensures syy_width { IsNarrow 20 ((whole faces.now.half_breadth ⊗ whole faces.now.half_breadth) ⊗ lid_bound faces.now d1 d2) result.syy.lo result.syy.hi }
    ensures sxx_width { IsNarrow 20 ((whole faces.now.last_x ⊗ whole faces.now.last_x) ⊗ lid_bound faces.now d1 d2) result.sxx.lo result.sxx.hi }
{
    let sums = lids_of_strips(faces, &level_planes(d1, d2));
    LidSums {
        area: sums.area.over_whole(2),
        sx: sums.sx.over_whole(2),
        syy: sums.syy.over_whole(2),
        sxx: sums.sxx.over_whole(2),
    }
}

/// The upright planes with a level from d1 to d2 at both ends.
fn level_planes(d1: i64, d2: i64) -> PlaneBox
    requires levels { AreLevels d1 d2 d1 d2 }
    ensures contains { (at : Fraction) → ContainsFraction 10 d1 d2 at → IsIn result (upright at) }
    ensures level { IsLevelBox result d1 d2 }
{
    match PlaneBox::upright(d1, d2, d1, d2) {
        Some(planes) => planes,
        None => unreachable!(),
    }
}

/// Twice the sums over the lids of the strips of a hull.
fn lids_of_strips(faces: &Faces, planes: &PlaneBox) -> LidSums
    ensures area { (stations : List Station) → IsHull stations → AreFacesOf stations faces.now → (at : Fraction) → IsIn planes.now (upright at) → ContainsFraction 20 result.area.lo result.area.hi (model.lid_area at stations ⊗ whole (pos 2)) }
    ensures sx { (stations : List Station) → IsHull stations → AreFacesOf stations faces.now → (at : Fraction) → IsIn planes.now (upright at) → ContainsFraction 20 result.sx.lo result.sx.hi (model.lid_x at stations ⊗ whole (pos 2)) }
    ensures syy { (stations : List Station) → IsHull stations → AreFacesOf stations faces.now → (at : Fraction) → IsIn planes.now (upright at) → ContainsFraction 20 result.syy.lo result.syy.hi (model.lid_yy at stations ⊗ whole (pos 2)) }
    ensures sxx { (stations : List Station) → IsHull stations → AreFacesOf stations faces.now → (at : Fraction) → IsIn planes.now (upright at) → ContainsFraction 20 result.sxx.lo result.sxx.hi (model.lid_xx at stations ⊗ whole (pos 2)) }
    ensures ends { AreLidEnds (length faces.now.list) result }
    ensures widths { (d1 d2 : ℤ) → d1 ≤ℤ d2 → IsLevelBox planes.now d1 d2 → AreLidWidths faces.now.first_x faces.now.last_x d1 d2 (whole faces.now.last_x) (whole faces.now.half_breadth) faces.now.list result }
{
    let way = length_of(faces);
    let mut sums = LidSums::nothing();
    for n in 0..faces.strips() {
        let part = lid_of_strip(faces, n, planes, way);
        sums = LidSums {
            area: sums.area + part.area,
            sx: sums.sx + part.sx,
            syy: sums.syy + part.syy,
            sxx: sums.sxx + part.sxx,
        };
    }
    sums
}

/// Twice the sums over the lid of one strip: there is none where it is dry or wholly under water.
fn lid_of_strip(faces: &Faces, n: usize, planes: &PlaneBox, way: ShipLength) -> LidSums
    requires strip { n < strip_count faces.now }
    requires first { way.first ≡ faces.now.first_x }
    requires last { way.last ≡ faces.now.last_x }
    ensures area { (stations : List Station) → IsHull stations → AreFacesOf stations faces.now → (at : Fraction) → IsIn planes.now (upright at) → ContainsFraction 20 result.area.lo result.area.hi (strip_lid at stations model.level_area (strip_at stations n) ⊗ whole (pos 2)) }
    ensures sx { (stations : List Station) → IsHull stations → AreFacesOf stations faces.now → (at : Fraction) → IsIn planes.now (upright at) → ContainsFraction 20 result.sx.lo result.sx.hi (strip_lid at stations (model.first_moment (λ p. p.x)) (strip_at stations n) ⊗ whole (pos 2)) }
    ensures syy { (stations : List Station) → IsHull stations → AreFacesOf stations faces.now → (at : Fraction) → IsIn planes.now (upright at) → ContainsFraction 20 result.syy.lo result.syy.hi (strip_lid at stations (model.second_moment (λ p. p.y)) (strip_at stations n) ⊗ whole (pos 2)) }
    ensures sxx { (stations : List Station) → IsHull stations → AreFacesOf stations faces.now → (at : Fraction) → IsIn planes.now (upright at) → ContainsFraction 20 result.sxx.lo result.sxx.hi (strip_lid at stations (model.second_moment (λ p. p.x)) (strip_at stations n) ⊗ whole (pos 2)) }
    ensures few { length (strip_faces faces.now n) < 2 ^ 14 }
    ensures ends { AreLidEnds (length (strip_faces faces.now n)) result }
    ensures widths { (d1 d2 : ℤ) → d1 ≤ℤ d2 → IsLevelBox planes.now d1 d2 → AreLidWidths faces.now.first_x faces.now.last_x d1 d2 (whole faces.now.last_x) (whole faces.now.half_breadth) (strip_faces faces.now n) result }
{
    let strip = faces.strip_faces(n);
    match water_of(faces.strip_nodes(n), planes, way) {
        Water::Wet => LidSums::nothing(),
        Water::Dry => LidSums::nothing(),
        Water::Cut => seen_sums(strip, planes, way),
    }
}

/// Twice the sums over the wet parts of faces, as they are seen from above.
fn seen_sums(faces: &[Face], planes: &PlaneBox, way: ShipLength) -> LidSums
    requires limits { AllByRecursion IsFace faces.now }
    requires between { LieBetween way.first way.last faces.now }
    requires few { length faces.now < 2 ^ 14 }
    ensures area { (at : Fraction) → IsIn planes.now (upright at) → ContainsFraction 20 result.area.lo result.area.hi (lid_parts at way.first way.last (λ p. one) (λ p. one) faces.now ⊗ whole (pos 2)) }
    ensures sx { (at : Fraction) → IsIn planes.now (upright at) → ContainsFraction 20 result.sx.lo result.sx.hi (lid_parts at way.first way.last (λ p. p.x) (λ p. one) faces.now ⊗ whole (pos 2)) }
    ensures syy { (at : Fraction) → IsIn planes.now (upright at) → ContainsFraction 20 result.syy.lo result.syy.hi (lid_parts at way.first way.last (λ p. p.y) (λ p. p.y) faces.now ⊗ whole (pos 2)) }
    ensures sxx { (at : Fraction) → IsIn planes.now (upright at) → ContainsFraction 20 result.sxx.lo result.sxx.hi (lid_parts at way.first way.last (λ p. p.x) (λ p. p.x) faces.now ⊗ whole (pos 2)) }
    ensures ends { AreLidEnds (length faces.now) result }
    ensures widths { (d1 d2 half_breadth height : ℤ) → IsLevelBox planes.now d1 d2 → LieInside half_breadth height faces.now → AreLidWidths way.first way.last d1 d2 (whole way.last) (whole half_breadth) faces.now result }
{
    let mut sums = LidSums::nothing();
    for face in faces {
        let part = seen_part(face, planes, way);
        sums = LidSums {
            area: sums.area + part.area,
            sx: sums.sx + part.sx,
            syy: sums.syy + part.syy,
            sxx: sums.sxx + part.sxx,
        };
    }
    sums
}

/// Twice the integrals over the wet part of a face as it is seen from above, each above 0 where the face points
/// downwards.
fn seen_part(face: &Face, planes: &PlaneBox, way: ShipLength) -> LidSums
    requires face { IsFace face.now }
    requires between { AllByRecursion (λ n. (way.first ≤ℤ n.x) × (n.x ≤ℤ way.last)) face.now.p }
    ensures area { (at : Fraction) → IsIn planes.now (upright at) → ContainsFraction 20 result.area.lo result.area.hi (lid_part at way.first way.last (λ p. one) (λ p. one) face.now ⊗ whole (pos 2)) }
    ensures sx { (at : Fraction) → IsIn planes.now (upright at) → ContainsFraction 20 result.sx.lo result.sx.hi (lid_part at way.first way.last (λ p. p.x) (λ p. one) face.now ⊗ whole (pos 2)) }
    ensures syy { (at : Fraction) → IsIn planes.now (upright at) → ContainsFraction 20 result.syy.lo result.syy.hi (lid_part at way.first way.last (λ p. p.y) (λ p. p.y) face.now ⊗ whole (pos 2)) }
    ensures sxx { (at : Fraction) → IsIn planes.now (upright at) → ContainsFraction 20 result.sxx.lo result.sxx.hi (lid_part at way.first way.last (λ p. p.x) (λ p. p.x) face.now ⊗ whole (pos 2)) }
    ensures area_ends { EndsAtMost (2 ^ 58) result.area.lo result.area.hi }
    ensures sx_ends { EndsAtMost (2 ^ 79) result.sx.lo result.sx.hi }
    ensures syy_ends { EndsAtMost (2 ^ 100) result.syy.lo result.syy.hi }
    ensures sxx_ends { EndsAtMost (2 ^ 100) result.sxx.lo result.sxx.hi }
    ensures widths { (d1 d2 half_breadth height : ℤ) → IsLevelBox planes.now d1 d2 → AllByRecursion (IsInside half_breadth height) face.now.p → AreSeenWidths way.first way.last d1 d2 (whole way.last) (whole half_breadth) face.now result }
{
    if face.az == 0 {
        return LidSums::nothing();
    }
    let [p, q, r] = face.p;
    let first = depth_of(planes, way, p);
    let second = depth_of(planes, way, q);
    let third = depth_of(planes, way, r);
    let depths = [first, second, third];
    if are_dry(&depths) {
        return LidSums::nothing();
    }
    let means = wet(depths);
    let area = area_from_above(face);
    LidSums {
        area: seen(means.share, area),
        sx: seen(linear_mean(&means.corner, p.x, q.x, r.x), area),
        syy: seen(square_mean(&means.pair, p.y, q.y, r.y), area),
        sxx: seen(square_mean(&means.pair, p.x, q.x, r.x), area),
    }
}

/// Twice the area of a face as it is seen from above, above 0 where the face points downwards.
fn area_from_above(face: &Face) -> i64
    requires { IsFace face.now }
    ensures value { result ≡ neg_ℤ face.now.az }
    ensures small { MagnitudeBelow 37 result }
{
    -face.az
}

/// A mean times an area in mm².
fn seen(mean: Span<40>, area: i64) -> Span<20>
    requires mean { EndsLess (2 ^ 83) mean.lo mean.hi }
    requires area { MagnitudeBelow 37 area }
    ensures contains { (m : Fraction) → ContainsFraction 40 mean.lo mean.hi m → ContainsFraction 20 result.lo result.hi (m ⊗ whole area) }
    ensures ends { (most : ℕ) → EndsLess most mean.lo mean.hi → EndsAtMost (most * 2 ^ 17) result.lo result.hi }
    ensures narrow { (w : Fraction) → IsNarrow 40 w mean.lo mean.hi → IsNarrow 20 (w ⊗ whole (pos (unsigned_abs area)) ⊕ units 20 2) result.lo result.hi }
{
    mean.times_whole(i128::from(area)).rescale()
}

/// The mean of a linear function over the wet part of a triangle, by the means of the corners' coordinates and its
/// values at the corners.
fn linear_mean(corner: &[Span<40>; 3], u: i64, v: i64, w: i64) -> Span<40>
    requires corner { AllByRecursion (λ s. EndsBelow 41 s.lo s.hi) corner.now }
    requires u { MagnitudeBelow 19 u }
    requires v { MagnitudeBelow 19 v }
    requires w { MagnitudeBelow 19 w }
    ensures ends { EndsLess (2 ^ 62) result.lo result.hi }
    ensures contains { (h : List (span.Span 20)) (d : CornerDepths) → Each (EnclosesMean 40 h) corner.now corner_means → AreWithin h d → ContainsFraction 40 result.lo result.hi (linear_at d (whole u) (whole v) (whole w)) }
    ensures narrow { (x y z : span.Span 20) (l : Fraction) → Each (IsNoWider 40 16 (x ∷ y ∷ z ∷ [])) corner.now corner_means → whole (pos (unsigned_abs u)) ≼ l → whole (pos (unsigned_abs v)) ≼ l → whole (pos (unsigned_abs w)) ≼ l → IsNarrow 40 (l ⊗ (rise_between (x ∷ y ∷ z ∷ []) ⊕ units 40 48)) result.lo result.hi }
{
    weighed_sum(corner[0], u, corner[1], v, corner[2], w)
}

/// The mean of the square of such a function, by the means of the products of two coordinates.
fn square_mean(pair: &[Span<40>; 6], u: i64, v: i64, w: i64) -> Span<40>
    requires pair { AllByRecursion (λ s. EndsBelow 41 s.lo s.hi) pair.now }
    requires u { MagnitudeBelow 19 u }
    requires v { MagnitudeBelow 19 v }
    requires w { MagnitudeBelow 19 w }
    ensures ends { EndsLess (2 ^ 83) result.lo result.hi }
    ensures contains { (h : List (span.Span 20)) (d : CornerDepths) → Each (EnclosesMean 40 h) pair.now pair_means → AreWithin h d → ContainsFraction 40 result.lo result.hi (square_at d (whole u) (whole v) (whole w)) }
    ensures narrow { (x y z : span.Span 20) (l : Fraction) → Each (IsNoWider 40 16 (x ∷ y ∷ z ∷ [])) pair.now pair_means → whole (pos (unsigned_abs u)) ≼ l → whole (pos (unsigned_abs v)) ≼ l → whole (pos (unsigned_abs w)) ≼ l → IsNarrow 40 ((l ⊗ l) ⊗ (rise_between (x ∷ y ∷ z ∷ []) ⊕ units 40 144)) result.lo result.hi }
{
    let squares = weighed_sum(
        pair[0],
        product(u, u),
        pair[3],
        product(v, v),
        pair[5],
        product(w, w),
    );
    let products = weighed_sum(
        pair[1],
        product(u, v),
        pair[2],
        product(u, w),
        pair[4],
        product(v, w),
    );
    squares + products.times_whole(2)
}

fn weighed_sum(
    first: Span<40>,
    u: i64,
    second: Span<40>,
    v: i64,
    third: Span<40>,
    w: i64,
) -> Span<40>
    requires first { EndsBelow 41 first.lo first.hi }
    requires u { MagnitudeBelow 38 u }
    requires second { EndsBelow 41 second.lo second.hi }
    requires v { MagnitudeBelow 38 v }
    requires third { EndsBelow 41 third.lo third.hi }
    requires w { MagnitudeBelow 38 w }
    ensures ends { (most : ℕ) → unsigned_abs u < most → unsigned_abs v < most → unsigned_abs w < most → EndsLess ((2 ^ 41 * most + 2 ^ 41 * most) + 2 ^ 41 * most) result.lo result.hi }
    ensures contains { (a b c : Fraction) → ContainsFraction 40 first.lo first.hi a → ContainsFraction 40 second.lo second.hi b → ContainsFraction 40 third.lo third.hi c → ContainsFraction 40 result.lo result.hi ((a ⊗ whole u ⊕ b ⊗ whole v) ⊕ c ⊗ whole w) }
    ensures narrow { (a b c : Fraction) → IsNarrow 40 a first.lo first.hi → IsNarrow 40 b second.lo second.hi → IsNarrow 40 c third.lo third.hi → IsNarrow 40 ((a ⊗ whole (pos (unsigned_abs u)) ⊕ b ⊗ whole (pos (unsigned_abs v))) ⊕ c ⊗ whole (pos (unsigned_abs w))) result.lo result.hi }
{
    weighed(first, u) + weighed(second, v) + weighed(third, w)
}

fn weighed(mean: Span<40>, weight: i64) -> Span<40>
    requires mean { EndsBelow 41 mean.lo mean.hi }
    requires weight { MagnitudeBelow 38 weight }
    ensures ends { (most : ℕ) → unsigned_abs weight < most → EndsLess (2 ^ 41 * most) result.lo result.hi }
    ensures contains { (m : Fraction) → ContainsFraction 40 mean.lo mean.hi m → ContainsFraction 40 result.lo result.hi (m ⊗ whole weight) }
    ensures narrow { (w : Fraction) → IsNarrow 40 w mean.lo mean.hi → IsNarrow 40 (w ⊗ whole (pos (unsigned_abs weight))) result.lo result.hi }
{
    mean.times_whole(i128::from(weight))
}

fn product(u: i64, v: i64) -> i64
    requires u { MagnitudeBelow 19 u }
    requires v { MagnitudeBelow 19 v }
    ensures value { result ≡ u *ℤ v }
    ensures small { MagnitudeBelow 38 result }
{
    u * v
}
