// Integrals of a full breadth, exact.
ghost use Rattle.std.specs.Prelude.{◌≡◌, ◌≤◌, ◌<◌, ◌+◌, ◌*◌, ◌^◌, pos};
ghost use Rattle.exact_algebra.specs.Span.{IsLeastSpan};
ghost use Rattle.exact_fraction.specs.Bounds.{MagnitudeBelow};

use outward_interval::Span;

/// A full breadth's area, `area / rise` mm², and its moment about the base, `moment / (3 · rise)` mm³.
#[derive(Clone, Copy)]
pub(crate) struct Integrals {
    pub(crate) area: u64,
    pub(crate) moment: u128,
    pub(crate) rise: u64,
    ghost rises: { (0 < rise) × (rise ≤ 65535) },
    ghost area_bound: { area < 2 ^ 55 },
    ghost moment_bound: { moment < 2 ^ 74 },
}

impl Integrals {
    /// With whole strips below: their area, and three times their moment.
    pub(crate) fn above(self, area: u64, moment: u64) -> Integrals
        requires part { (self.area < 2 ^ 51) × (self.moment < 2 ^ 69) }
        requires whole { (area < 2 ^ 38) × (moment < 2 ^ 56) }
        ensures area { result.area ≡ self.area + area * self.rise }
        ensures moment { result.moment ≡ self.moment + moment * self.rise }
        ensures rise { result.rise ≡ self.rise }
    {
        Integrals {
            area: self.area + area * self.rise,
            moment: self.moment + u128::from(moment) * u128::from(self.rise),
            rise: self.rise,
        }
    }
}

/// The least span of `numerator / denominator`.
pub(crate) fn least_span(numerator: u128, denominator: u128) -> Span<20>
    requires some { 0 < denominator }
    requires bounds { (numerator < 2 ^ 74) × (denominator < 2 ^ 20) }
    ensures least { IsLeastSpan 20 result.lo result.hi (pos numerator) denominator }
    ensures bounded { MagnitudeBelow 96 result.lo × MagnitudeBelow 96 result.hi }
{
    let units = numerator * (1 << 20);
    let low = units / denominator;
    let high = (units + (denominator - 1)) / denominator;
    match Span::new(low as i128, high as i128) {
        Some(span) => span,
        None => unreachable!(),
    }
}
