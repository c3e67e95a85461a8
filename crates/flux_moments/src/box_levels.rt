// The level at a place of the ship, for all planes of a box.
ghost use Rattle.std.specs.Prelude.{◌≡◌, ◌*◌, ◌^◌, ◌≤◌, ◌≤ℤ◌, ◌<ℤ◌, ◌+ℤ◌, ◌-ℤ◌, ◌*ℤ◌, ℤ, pos, unsigned_abs};
ghost use Rattle.exact_algebra.proofs.Fraction.{Fraction, ◌⊕◌, ◌≼◌};
ghost use Rattle.exact_algebra.proofs.Span.{ContainsFraction, in_units};
ghost use Rattle.exact_algebra.proofs.Whole.{whole};
ghost use Rattle.exact_algebra.specs.Span.{IsFloor, IsCeiling};
ghost use Rattle.hull_model.specs.Body.{IsWithin};
ghost use Rattle.hull_model.specs.Waterplane.{Waterplane, level_at};
ghost use Rattle.outward_interval.specs.Ends.{AreLeastEnds};
ghost use Rattle.outward_interval.specs.Widths.{units, IsNarrow, IsNear};
ghost use Rattle.plane_clip.specs.Enclosure.{in_unit};
ghost use Rattle.flux_moments.specs.Limits.{EndsAtMost};
ghost use Rattle.flux_moments.specs.Planes.{IsIn, AreLevelEnds};

use crate::PlaneBox;
use outward_interval::Span;

/// Units of 2^-20 mm in a grid unit.
const UNITS_IN_GRID: i64 = 1024;

/// The length of a ship: x of the first station and of the last, in mm.
///
/// It keeps that both lie from 0 to 524287, the first before the last.
#[derive(Clone, Copy, Debug, PartialEq, Eq)]
pub struct ShipLength {
    pub first: i64,
    pub last: i64,
    ghost start: { IsWithin (pos 524287) first },
    ghost end: { IsWithin (pos 524287) last },
    ghost forwards: { first <ℤ last },
}

/// The levels of a box at x.
pub(crate) fn levels_at(planes: &PlaneBox, way: ShipLength, x: i64) -> Span<20>
    requires { (way.first ≤ℤ x) × (x ≤ℤ way.last) }
    ensures ends { EndsAtMost (2 ^ 40) result.lo result.hi }
    ensures contains { (plane : Waterplane) → IsIn planes.now plane → ContainsFraction 20 result.lo result.hi (level_at plane way.first way.last (whole x)) }
    ensures narrow { (d : Fraction) → IsNarrow 10 d planes.now.a1 planes.now.a2 → IsNarrow 10 d planes.now.f1 planes.now.f2 → IsNarrow 20 (d ⊕ units 20 2) result.lo result.hi }
    ensures near { (l : Fraction) → IsNear 10 l planes.now.a1 planes.now.a2 → IsNear 10 l planes.now.f1 planes.now.f2 → IsNear 20 (l ⊕ units 20 1) result.lo result.hi }
    ensures least { (plane : Waterplane) → plane.a ≡ in_unit 10 planes.now.a1 → plane.f ≡ in_unit 10 planes.now.f1 → in_units 20 (level_at plane way.first way.last (whole x)) ≼ whole (result.lo +ℤ pos 1) }
    ensures greatest { (plane : Waterplane) → plane.a ≡ in_unit 10 planes.now.a2 → plane.f ≡ in_unit 10 planes.now.f2 → whole (result.hi -ℤ pos 1) ≼ in_units 20 (level_at plane way.first way.last (whole x)) }
    ensures level { (d1 d2 : ℤ) → (planes.now.a1 ≡ d1) × (planes.now.a2 ≡ d2) → (planes.now.f1 ≡ d1) × (planes.now.f2 ≡ d2) → (result.lo ≡ d1 *ℤ pos 1024) × (result.hi ≡ d2 *ℤ pos 1024) }
{
    if planes.a1 == planes.f1 && planes.a2 == planes.f2 {
        same_levels(planes.a1, planes.a2)
    } else {
        trimmed_levels_at(planes, way, x)
    }
}

/// All levels from one to another.
fn same_levels(low: i64, high: i64) -> Span<20>
    requires order { low ≤ℤ high }
    requires low { unsigned_abs low ≤ 2 ^ 30 }
    requires high { unsigned_abs high ≤ 2 ^ 30 }
    ensures ends { EndsAtMost (2 ^ 40) result.lo result.hi }
    ensures units { (result.lo ≡ low *ℤ pos 1024) × (result.hi ≡ high *ℤ pos 1024) }
{
    match Span::new(
        i128::from(low * UNITS_IN_GRID),
        i128::from(high * UNITS_IN_GRID),
    ) {
        Some(span) => span,
        None => unreachable!(),
    }
}

/// Encloses the level at x, in mm, for all planes of a box, which may be trimmed. x lies between the first station and the
/// last.
///
/// The span is the least in units of 2^-20 mm that holds them all, and its ends are at most 2^40 units in magnitude.
pub fn trimmed_levels_at(planes: &PlaneBox, way: ShipLength, x: i64) -> Span<20>
    requires { (way.first ≤ℤ x) × (x ≤ℤ way.last) }
    ensures ends { EndsAtMost (2 ^ 40) result.lo result.hi }
    ensures levels { AreLevelEnds planes.now way.first way.last x result.lo result.hi }
{
    let (behind, before) = (x - way.first, way.last - x);
    let low = mixed(planes.a1, planes.f1, before, behind);
    let high = mixed(planes.a2, planes.f2, before, behind);
    over_length(low, high, way.last - way.first)
}

// The quotients by a length of all from low to high, rounded outwards.
fn over_length(low: i64, high: i64, length: i64) -> Span<20>
    requires order { low ≤ℤ high }
    requires length { (pos 1 ≤ℤ length) × (length ≤ℤ pos 524287) }
    requires low { unsigned_abs low ≤ 2 ^ 40 * unsigned_abs length }
    requires high { unsigned_abs high ≤ 2 ^ 40 * unsigned_abs length }
    ensures ends { EndsAtMost (2 ^ 40) result.lo result.hi }
    ensures quotients { AreLeastEnds low high (unsigned_abs length) result.lo result.hi }
{
    let from = floor_over(low, length);
    let to = ceiling_over(high, length);
    match Span::new(i128::from(from), i128::from(to)) {
        Some(span) => span,
        None => unreachable!(),
    }
}

fn ceiling_over(n: i64, length: i64) -> i64
    requires length { (pos 1 ≤ℤ length) × (length ≤ℤ pos 524287) }
    requires size { unsigned_abs n ≤ 2 ^ 40 * unsigned_abs length }
    ensures ceiling { IsCeiling n (unsigned_abs length) result }
    ensures small { unsigned_abs result ≤ 2 ^ 40 }
{
    -floor_over(-n, length)
}

fn floor_over(n: i64, length: i64) -> i64
    requires length { (pos 1 ≤ℤ length) × (length ≤ℤ pos 524287) }
    requires size { unsigned_abs n ≤ 2 ^ 40 * unsigned_abs length }
    ensures floor { IsFloor n (unsigned_abs length) result }
    ensures small { unsigned_abs result ≤ 2 ^ 40 }
{
    n.div_euclid(length)
}

// Times the length, in units of 2^-20 mm, the level at the place that has so many mm before it to the last station and
// so many behind it from the first.
fn mixed(aft: i64, fore: i64, before: i64, behind: i64) -> i64
    requires levels { (unsigned_abs aft ≤ 2 ^ 30) × (unsigned_abs fore ≤ 2 ^ 30) }
    requires places { IsWithin (pos 524287) before × IsWithin (pos 524287) behind }
    ensures value { result ≡ ((aft *ℤ before) +ℤ (fore *ℤ behind)) *ℤ pos 1024 }
    ensures small { unsigned_abs result ≤ 2 ^ 40 * unsigned_abs (before +ℤ behind) }
{
    (weighed(aft, before) + weighed(fore, behind)) * UNITS_IN_GRID
}

fn weighed(level: i64, place: i64) -> i64
    requires level { unsigned_abs level ≤ 2 ^ 30 }
    requires place { IsWithin (pos 524287) place }
    ensures value { result ≡ level *ℤ place }
    ensures small { unsigned_abs result ≤ 2 ^ 30 * unsigned_abs place }
{
    level * place
}
