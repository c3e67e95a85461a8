// Points of an edge and parts of an area, for spans, rounded outwards.
ghost use Rattle.std.specs.Prelude.{◌≡◌, ℕ, suc, ◌*◌, ◌^◌, ◌≤ℤ◌, ◌*ℤ◌, pos};
ghost use Rattle.exact_algebra.proofs.Fraction.{Fraction, ◌⊗◌, inverse};
ghost use Rattle.exact_algebra.proofs.Span.{ContainsFraction};
ghost use Rattle.exact_algebra.proofs.Whole.{whole};
ghost use Rattle.exact_fraction.specs.Bounds.{MagnitudeBelow};
ghost use Rattle.hull_model.specs.Fractions.{interpolated};
ghost use Rattle.plane_clip.specs.Limits.{EndsAtMost, IsThin};

use outward_interval::Span;

/// Units of 2^-20 mm in a mm, and so of areas.
const UNITS: i64 = 1 << 20;

/// A whole number alone.
pub(crate) fn exact(n: i64) -> Span<20>
    requires { MagnitudeBelow 37 n }
    ensures units { (result.lo ≡ n *ℤ pos (2 ^ 20)) × (result.hi ≡ n *ℤ pos (2 ^ 20)) }
{
    let units = i128::from(n * UNITS);
    match Span::new(units, units) {
        Some(span) => span,
        None => unreachable!(),
    }
}

/// Between two coordinates, at the part n / d of the way from the first to the second.
pub(crate) fn mixed(first: Span<20>, second: Span<20>, n: i128, d: i128) -> Span<20>
    requires part { (pos 0 ≤ℤ n) × (n ≤ℤ d) }
    requires whole { (pos 1 ≤ℤ d) × (d ≤ℤ pos (2 ^ 20)) }
    requires first { EndsAtMost (2 ^ 36) first.lo first.hi }
    requires second { EndsAtMost (2 ^ 36) second.lo second.hi }
    ensures contains { (x y : Fraction) → ContainsFraction 20 first.lo first.hi x → ContainsFraction 20 second.lo second.hi y → ContainsFraction 20 result.lo result.hi (interpolated (whole n ⊗ inverse (whole d)) x y) }
    ensures ends { (most : ℕ) → EndsAtMost most first.lo first.hi → EndsAtMost most second.lo second.hi → EndsAtMost most result.lo result.hi }
    ensures thin { (k : ℕ) → IsThin k first.lo first.hi → IsThin k second.lo second.hi → IsThin (suc k) result.lo result.hi }
{
    let before = first.times_whole(d - n);
    let behind = second.times_whole(n);
    (before + behind).over_whole(d)
}

/// The part n / d of an area.
pub(crate) fn portion(area: Span<20>, n: i128, d: i128) -> Span<20>
    requires part { (pos 0 ≤ℤ n) × (n ≤ℤ d) }
    requires whole { (pos 1 ≤ℤ d) × (d ≤ℤ pos (2 ^ 40)) }
    requires area { EndsAtMost (2 ^ 57) area.lo area.hi }
    ensures contains { (x : Fraction) → ContainsFraction 20 area.lo area.hi x → ContainsFraction 20 result.lo result.hi (x ⊗ (whole n ⊗ inverse (whole d))) }
    ensures ends { (most : ℕ) → EndsAtMost most area.lo area.hi → EndsAtMost most result.lo result.hi }
    ensures thin { (k : ℕ) → IsThin k area.lo area.hi → IsThin (suc k) result.lo result.hi }
{
    area.times_whole(n).over_whole(d)
}
