// Printed figures.
ghost use Rattle.std.specs.Prelude.{◌≤◌, ◌≤ℤ◌};
ghost use Rattle.exact_fraction.specs.Bounds.{MagnitudeBelow};
ghost use Rattle.outward_interval.specs.Printed.{IsPrinted};

use crate::Span;
use crate::rounding::{ceiling_of, floor_of, power_of_ten, scaled};

/// An interval as it is printed: from `lo` to `hi` units of the last printed place.
#[derive(Clone, Copy, Debug, PartialEq, Eq)]
pub struct Figure {
    pub lo: i128,
    pub hi: i128,
    ghost ordered: { lo ≤ℤ hi },
}

impl<const F: u32> Span<F> {
    /// The span as it is printed: divided by 10^`shift`, to `places` decimals, rounded outwards.
    ///
    /// The shift takes a quantity to its printed unit (3 from mm to m, 6 from mm² to m², 9 from mm³ to m³).
    pub fn figure(self, shift: u32, places: u32) -> Figure
        requires shift { shift ≤ 12 }
        requires places { places ≤ 9 }
        requires low_end { MagnitudeBelow 96 self.lo }
        requires high_end { MagnitudeBelow 96 self.hi }
        ensures { IsPrinted F shift places self.entry.lo self.entry.hi result.lo result.hi }
    {
        let unit = power_of_ten(shift);
        let low = floor_of(scaled(self.lo(), places), F, unit);
        let high = ceiling_of(scaled(self.hi(), places), F, unit);
        Figure { lo: low, hi: high }
    }
}
