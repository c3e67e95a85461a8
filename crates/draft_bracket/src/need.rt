// The volume that is asked for.
ghost use Rattle.std.specs.Prelude.{◌≡◌};
ghost use Rattle.exact_algebra.specs.Span.{IsLeastSpan};
ghost use Rattle.exact_fraction.specs.Fraction.{denominator};

use exact_fraction::Ratio;
use outward_interval::Span;

/// A volume in mm³, and its least span.
#[derive(Clone, Copy, Debug)]
pub(crate) struct Need {
    pub(crate) ratio: Ratio,
    pub(crate) units: Span<20>,
    ghost least: { IsLeastSpan 20 units.lo units.hi ratio.num (denominator ratio) },
}

impl Need {
    pub(crate) fn of(ratio: &Ratio) -> Need
        ensures { result.ratio ≡ ratio.now }
    {
        Need {
            ratio: *ratio,
            units: Span::of_ratio(ratio),
        }
    }
}
