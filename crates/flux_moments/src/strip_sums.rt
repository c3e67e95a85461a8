// Sums over the strips of a hull.
ghost use Rattle.std.specs.Prelude.{◌≡◌, ◌<◌, ◌≤◌, ◌+◌, ◌*◌, ◌^◌, ◌≤ℤ◌, ◌*ℤ◌, ℕ, Bool, List, length, pos, unsigned_abs};
ghost use Rattle.exact_algebra.proofs.Fraction.{Fraction, ◌⊕◌, ◌⊗◌, inverse};
ghost use Rattle.exact_algebra.proofs.Span.{ContainsFraction};
ghost use Rattle.exact_algebra.proofs.Whole.{whole};
ghost use Rattle.hull_model.specs.declared.station.Station.{Station};
ghost use Rattle.hull_model.specs.Body.{IsHull};
ghost use Rattle.hull_model.specs.Fractions.{sum_over};
ghost use Rattle.hull_model.specs.Submerged as submerged;
ghost use Rattle.hull_model.specs.Waterplane.{Waterplane, height, side_distance};
ghost use Rattle.hull_polyhedron.specs.FacesOf.{AreFacesOf};
ghost use Rattle.hull_polyhedron.specs.StripLaw.{strip_volume, strip_integral};
ghost use Rattle.hull_polyhedron.specs.Strips.{strip_at};
ghost use Rattle.hull_polyhedron.specs.StripsOf.{strip_count, strip_faces, faces_to, sum_to, AreApart};
ghost use Rattle.outward_interval.specs.Widths.{units, IsNarrow};
ghost use Rattle.flux_moments.specs.Clear.{IsClear, AreClear, open_to};
ghost use Rattle.flux_moments.specs.Limits.{EndsAtMost};
ghost use Rattle.flux_moments.specs.Planes.{HasDirectionIn, IsIn};
ghost use Rattle.flux_moments.specs.Sizes.{doubled_area, spread, volume_part, length_part};
ghost use Rattle.flux_moments.specs.StripSizes.{most_volume, AreStripEnds, width_of, AreStripWidths};
ghost use Rattle.flux_moments.specs.Widths.{size_of, reach_of};
ghost use Rattle.flux_moments.specs.Wets.{AreEndsAtMost};

use crate::dry::nothing;
use crate::face_sums::{column_sums, volume_sum};
use crate::water::{Water, water_of};
use crate::{PlaneBox, ShipLength, Wet};
use angle_bounds::Bracket;
use hull_polyhedron::{Faces, Totals};
use outward_interval::Span;

/// Units of 2^-20 mm in a mm.
const UNITS: i128 = 1 << 20;

/// The sums over the strips of a hull: twice the volume and the integrals of x and of the side, four times that of the
/// height.
pub(crate) fn strip_sums(faces: &Faces, planes: &PlaneBox) -> Wet
    ensures few { strip_count faces.now ≤ 63 }
    ensures apart { AreApart faces.now }
    ensures ends { AreStripEnds (faces_to faces.now (strip_count faces.now)) (strip_count faces.now) result }
    ensures volume { (stations : List Station) → IsHull stations → AreFacesOf stations faces.now → (plane : Waterplane) → IsIn planes.now plane → ContainsFraction 20 result.volume.lo result.volume.hi (submerged.submerged_volume plane stations ⊗ whole (pos 2)) }
    ensures mx { (stations : List Station) → IsHull stations → AreFacesOf stations faces.now → (plane : Waterplane) → IsIn planes.now plane → ContainsFraction 20 result.mx.lo result.mx.hi (submerged.mx plane stations ⊗ whole (pos 2)) }
    ensures mv { (stations : List Station) → IsHull stations → AreFacesOf stations faces.now → (plane : Waterplane) → IsIn planes.now plane → ContainsFraction 20 result.mv.lo result.mv.hi (submerged.mv plane stations ⊗ whole (pos 2)) }
    ensures mu { (stations : List Station) → IsHull stations → AreFacesOf stations faces.now → (plane : Waterplane) → IsIn planes.now plane → ContainsFraction 20 result.mu.lo result.mu.hi (submerged.mu plane stations ⊗ whole (pos 4)) }
    ensures widths { AreStripWidths (λ g. sum_to faces.now g (strip_count faces.now)) (strip_count faces.now) (whole faces.now.last_x) (reach_of faces.now planes.now) (spread (size_of planes.now) (reach_of faces.now planes.now)) result }
    ensures sharp { (chosen : ℕ → Bool) → AreClear faces.now planes.now chosen → IsNarrow 20 (width_of (λ g. open_to faces.now chosen g (strip_count faces.now)) (strip_count faces.now) (λ f. volume_part (spread (size_of planes.now) (reach_of faces.now planes.now)) (doubled_area f))) result.volume.lo result.volume.hi × IsNarrow 20 (width_of (λ g. open_to faces.now chosen g (strip_count faces.now)) (strip_count faces.now) (λ f. length_part (whole faces.now.last_x) (spread (size_of planes.now) (reach_of faces.now planes.now)) (doubled_area f))) result.mx.lo result.mx.hi }
{
    let way = length_of(faces);
    let mut sums = Wet::nothing();
    for n in 0..faces.strips() {
        sums = sums + strip_sum(faces, n, planes, way);
    }
    sums
}

/// Twice the volume alone.
pub(crate) fn volume_of_strips(faces: &Faces, planes: &PlaneBox) -> Span<20>
    ensures few { strip_count faces.now ≤ 63 }
    ensures apart { AreApart faces.now }
    ensures ends { EndsAtMost (most_volume (faces_to faces.now (strip_count faces.now)) (strip_count faces.now)) result.lo result.hi }
    ensures volume { (stations : List Station) → IsHull stations → AreFacesOf stations faces.now → (plane : Waterplane) → IsIn planes.now plane → ContainsFraction 20 result.lo result.hi (submerged.submerged_volume plane stations ⊗ whole (pos 2)) }
    ensures width { IsNarrow 20 (width_of (λ g. sum_to faces.now g (strip_count faces.now)) (strip_count faces.now) (λ f. volume_part (spread (size_of planes.now) (reach_of faces.now planes.now)) (doubled_area f))) result.lo result.hi }
    ensures sharp { (chosen : ℕ → Bool) → AreClear faces.now planes.now chosen → IsNarrow 20 (width_of (λ g. open_to faces.now chosen g (strip_count faces.now)) (strip_count faces.now) (λ f. volume_part (spread (size_of planes.now) (reach_of faces.now planes.now)) (doubled_area f))) result.lo result.hi }
{
    let way = length_of(faces);
    let mut sum = nothing();
    for n in 0..faces.strips() {
        sum = sum + volume_of_strip(faces, n, planes, way);
    }
    sum
}

/// From the first station of a hull to its last.
pub(crate) fn length_of(faces: &Faces) -> ShipLength
    ensures first { result.first ≡ faces.now.first_x }
    ensures last { result.last ≡ faces.now.last_x }
{
    ShipLength {
        first: faces.first_x(),
        last: faces.last_x(),
    }
}

/// One strip: its totals where it is wholly under water, nothing where it is dry, else the columns of its faces.
fn strip_sum(faces: &Faces, n: usize, planes: &PlaneBox, way: ShipLength) -> Wet
    requires strip { n < strip_count faces.now }
    requires first { way.first ≡ faces.now.first_x }
    requires last { way.last ≡ faces.now.last_x }
    ensures few { length (strip_faces faces.now n) < 2 ^ 14 }
    ensures ends { AreStripEnds (length (strip_faces faces.now n)) 1 result }
    ensures volume { (stations : List Station) → IsHull stations → AreFacesOf stations faces.now → (plane : Waterplane) → IsIn planes.now plane → ContainsFraction 20 result.volume.lo result.volume.hi (strip_volume plane stations (strip_at stations n) ⊗ whole (pos 2)) }
    ensures mx { (stations : List Station) → IsHull stations → AreFacesOf stations faces.now → (plane : Waterplane) → IsIn planes.now plane → ContainsFraction 20 result.mx.lo result.mx.hi (strip_integral plane stations (λ p. p.x) (strip_at stations n) ⊗ whole (pos 2)) }
    ensures mv { (stations : List Station) → IsHull stations → AreFacesOf stations faces.now → (plane : Waterplane) → IsIn planes.now plane → ContainsFraction 20 result.mv.lo result.mv.hi (strip_integral plane stations (side_distance plane) (strip_at stations n) ⊗ whole (pos 2)) }
    ensures mu { (stations : List Station) → IsHull stations → AreFacesOf stations faces.now → (plane : Waterplane) → IsIn planes.now plane → ContainsFraction 20 result.mu.lo result.mu.hi (strip_integral plane stations (height plane) (strip_at stations n) ⊗ whole (pos 4)) }
    ensures clear { IsClear faces.now planes.now n → IsNarrow 20 (units 20 3) result.volume.lo result.volume.hi × IsNarrow 20 (units 20 3) result.mx.lo result.mx.hi }
    ensures widths { AreStripWidths (λ g. sum_over g (strip_faces faces.now n)) 1 (whole faces.now.last_x) (reach_of faces.now planes.now) (spread (size_of planes.now) (reach_of faces.now planes.now)) result }
{
    let strip = faces.strip_faces(n);
    match water_of(faces.strip_nodes(n), planes, way) {
        Water::Wet => whole_strip(faces.total(n, n + 1), &planes.bracket),
        Water::Dry => Wet::nothing(),
        Water::Cut => column_sums(strip, planes, way),
    }
}

/// The volume of one strip, twice.
fn volume_of_strip(faces: &Faces, n: usize, planes: &PlaneBox, way: ShipLength) -> Span<20>
    requires strip { n < strip_count faces.now }
    requires first { way.first ≡ faces.now.first_x }
    requires last { way.last ≡ faces.now.last_x }
    ensures few { length (strip_faces faces.now n) < 2 ^ 14 }
    ensures ends { EndsAtMost (most_volume (length (strip_faces faces.now n)) 1) result.lo result.hi }
    ensures volume { (stations : List Station) → IsHull stations → AreFacesOf stations faces.now → (plane : Waterplane) → IsIn planes.now plane → ContainsFraction 20 result.lo result.hi (strip_volume plane stations (strip_at stations n) ⊗ whole (pos 2)) }
    ensures clear { IsClear faces.now planes.now n → IsNarrow 20 (units 20 3) result.lo result.hi }
    ensures width { IsNarrow 20 (width_of (λ g. sum_over g (strip_faces faces.now n)) 1 (λ f. volume_part (spread (size_of planes.now) (reach_of faces.now planes.now)) (doubled_area f))) result.lo result.hi }
{
    let strip = faces.strip_faces(n);
    match water_of(faces.strip_nodes(n), planes, way) {
        Water::Wet => quotient(faces.total(n, n + 1).six, 3),
        Water::Dry => nothing(),
        Water::Cut => volume_sum(strip, planes, way),
    }
}

/// The sums over a strip that is wholly under water, by its totals.
fn whole_strip(total: Totals, bracket: &Bracket) -> Wet
    requires six { unsigned_abs total.six ≤ 2 ^ 64 }
    requires mx24 { unsigned_abs total.mx24 ≤ 2 ^ 85 }
    requires mz24 { unsigned_abs total.mz24 ≤ 2 ^ 82 }
    ensures ends { (most : ℕ) → unsigned_abs total.mz24 ≤ 12 * most → AreEndsAtMost (2 ^ 83) (2 ^ 102) (most * 2 ^ 20 + 1) ((2 * most) * 2 ^ 20 + 1) result }
    ensures volume { ContainsFraction 20 result.volume.lo result.volume.hi (whole total.six ⊗ inverse (whole (pos 3))) }
    ensures mx { ContainsFraction 20 result.mx.lo result.mx.hi (whole total.mx24 ⊗ inverse (whole (pos 12))) }
    ensures mv { (plane : Waterplane) → HasDirectionIn bracket.now plane → ContainsFraction 20 result.mv.lo result.mv.hi (((whole (pos plane.s) ⊗ inverse (whole (pos plane.r))) ⊗ whole total.mz24) ⊗ inverse (whole (pos 12))) }
    ensures mu { (plane : Waterplane) → HasDirectionIn bracket.now plane → ContainsFraction 20 result.mu.lo result.mu.hi (((whole (pos plane.c) ⊗ inverse (whole (pos plane.r))) ⊗ whole total.mz24) ⊗ inverse (whole (pos 6))) }
    ensures volume_width { IsNarrow 20 (units 20 2) result.volume.lo result.volume.hi }
    ensures mx_width { IsNarrow 20 (units 20 2) result.mx.lo result.mx.hi }
    ensures mv_width { (e : Fraction) (most : ℕ) → IsNarrow 40 e bracket.now.s.lo bracket.now.s.hi → unsigned_abs total.mz24 ≤ 12 * most → IsNarrow 20 (e ⊗ whole (pos most) ⊕ units 20 3) result.mv.lo result.mv.hi }
    ensures mu_width { (e : Fraction) (most : ℕ) → IsNarrow 40 e bracket.now.c.lo bracket.now.c.hi → unsigned_abs total.mz24 ≤ 12 * most → IsNarrow 20 (e ⊗ whole (pos (2 * most)) ⊕ units 20 3) result.mu.lo result.mu.hi }
{
    Wet {
        volume: quotient(total.six, 3),
        mx: quotient(total.mx24, 12),
        mv: turned(bracket.s, total.mz24, 12),
        mu: turned(bracket.c, total.mz24, 6),
    }
}

/// A quotient of whole numbers.
fn quotient(n: i128, divisor: i128) -> Span<20>
    requires n { unsigned_abs n ≤ 2 ^ 85 }
    requires divisor { pos 1 ≤ℤ divisor }
    ensures ends { (most : ℕ) → unsigned_abs n * 2 ^ 20 < most * unsigned_abs divisor → EndsAtMost most result.lo result.hi }
    ensures contains { ContainsFraction 20 result.lo result.hi (whole n ⊗ inverse (whole divisor)) }
    ensures width { IsNarrow 20 (units 20 2) result.lo result.hi }
{
    whole_span(n).over_whole(divisor)
}

fn whole_span(n: i128) -> Span<20>
    requires { unsigned_abs n ≤ 2 ^ 85 }
    ensures { (result.lo ≡ n *ℤ pos (2 ^ 20)) × (result.hi ≡ n *ℤ pos (2 ^ 20)) }
{
    match Span::new(n * UNITS, n * UNITS) {
        Some(span) => span,
        None => unreachable!(),
    }
}

/// All numbers of a span from 0 to 1, each times one whole number and divided by another.
fn turned(part: Span<40>, n: i128, divisor: i128) -> Span<20>
    requires part { EndsAtMost (2 ^ 40) part.lo part.hi }
    requires n { unsigned_abs n ≤ 2 ^ 82 }
    requires divisor { pos 1 ≤ℤ divisor }
    ensures ends { (most : ℕ) → unsigned_abs n ≤ most * unsigned_abs divisor → EndsAtMost (most * 2 ^ 20 + 1) result.lo result.hi }
    ensures contains { (x : Fraction) → ContainsFraction 40 part.lo part.hi x → ContainsFraction 20 result.lo result.hi ((x ⊗ whole n) ⊗ inverse (whole divisor)) }
    ensures narrow { (e : Fraction) (most : ℕ) → IsNarrow 40 e part.lo part.hi → unsigned_abs n ≤ most * unsigned_abs divisor → IsNarrow 20 (e ⊗ whole (pos most) ⊕ units 20 3) result.lo result.hi }
{
    part.times_whole(n).over_whole(divisor).rescale()
}
