// Integrals over the displaced volume.
ghost use Rattle.std.specs.Prelude.{◌*◌, ◌≤◌, ℕ};
ghost use Rattle.exact_algebra.proofs.Fraction.{Fraction, ◌⊕◌};
ghost use Rattle.exact_algebra.proofs.Span.{ContainsFraction};
ghost use Rattle.outward_interval.specs.Ends.{EndsBelow};
ghost use Rattle.outward_interval.specs.Widths.{units, IsNarrow};
ghost use Rattle.flux_moments.specs.Limits.{EndsAtMost};
ghost use Rattle.dynamic_lever.specs.Levers.{over_volume};

use hull_model::Water;
use loading_sheet::Loading;
use outward_interval::Span;

/// Of the 10^9 mm³ in a m³, what an integral is divided by before and after it is taken times the density, so that it
/// fits.
const FIRST_PART: i128 = 1000;

const SECOND_PART: i128 = 1_000_000;

/// An integral in mm⁴ over the displaced volume, in mm.
pub(crate) fn over_volume(integral: Span<20>, loading: &Loading, water: &Water) -> Span<20>
    requires { EndsBelow 113 integral.lo integral.hi }
    ensures contains { (m : Fraction) → ContainsFraction 20 integral.lo integral.hi m → ContainsFraction 20 result.lo result.hi (over_volume loading.now water.now m) }
    ensures narrow { (w : Fraction) → IsNarrow 20 w integral.lo integral.hi → IsNarrow 20 (over_volume loading.now water.now w ⊕ units 20 3) result.lo result.hi }
    ensures ends { (most : ℕ) → EndsAtMost (most * 500000) integral.lo integral.hi → EndsAtMost most result.lo result.hi }
{
    let divisor = i128::from(loading.mass) * SECOND_PART;
    integral
        .over_whole(FIRST_PART)
        .times_whole(i128::from(water.density))
        .over_whole(divisor)
}
