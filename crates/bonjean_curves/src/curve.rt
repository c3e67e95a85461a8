// The section of one station below a draft.
ghost use Rattle.std.specs.Prelude.{◌≡◌, ◌≤◌, ◌<◌, ◌*◌, ◌^◌, length};
ghost use Rattle.std.specs.List.{AllByRecursion};
ghost use Rattle.exact_algebra.proofs.Span.{IsLeastSpanOf};
ghost use Rattle.exact_fraction.specs.Bounds.{MagnitudeBelow};
ghost use Rattle.hull_model.specs.Lists.{Rises};
ghost use Rattle.hull_model.specs.Body.{IsPoint};
ghost use Rattle.hull_model.specs.Stations.{points_at};
ghost use Rattle.hull_model.specs.Section.{section_area, section_moment};
ghost use Rattle.bonjean_curves.specs.Quotient.{IsQuotient};

use crate::integrals::{Integrals, least_span};
use crate::strip::Strip;
use hull_model::{Hull, Point};
use outward_interval::Span;

/// The area of a section in mm², and its moment about the base line z = 0 in mm³.
#[derive(Clone, Copy, Debug, PartialEq, Eq)]
pub struct SectionSpans {
    pub area: Span<20>,
    pub moment: Span<20>,
}

/// The area and the first moment about the base of one station's full breadth below a draft.
///
/// `station` counts from 0; `draft` is in mm above the base, up to 131071. Half-breadths between the
/// station's points are linear. Each span is the least of its scale that contains the exact value: that
/// of the triangles between the points and the centreplane, cut along the draft line and mirrored.
pub fn section(hull: &Hull, station: usize, draft: u32) -> SectionSpans
    requires station { station < length hull.now }
    requires draft { draft ≤ 131071 }
    ensures area { IsLeastSpanOf 20 result.area.lo result.area.hi (section_area (points_at hull.now station) draft) }
    ensures moment { IsLeastSpanOf 20 result.moment.lo result.moment.hi (section_moment (points_at hull.now station) draft) }
    ensures area_bounded { MagnitudeBelow 96 result.area.lo × MagnitudeBelow 96 result.area.hi }
    ensures moment_bounded { MagnitudeBelow 96 result.moment.lo × MagnitudeBelow 96 result.moment.hi }
{
    let points = hull.stations()[station].points.as_slice();
    let integrals = integrals_below(points, u64::from(draft));
    let rise = u128::from(integrals.rise);
    SectionSpans {
        area: least_span(u128::from(integrals.area), rise),
        moment: least_span(integrals.moment, 3 * rise),
    }
}

const NOTHING: Integrals = Integrals {
    area: 0,
    moment: 0,
    rise: 1,
};

// Strips lie one on another, so the draft cuts one of them at most.
fn integrals_below(points: &[Point], draft: u64) -> Integrals
    requires few { length points.now ≤ 32 }
    requires heights_rise { Rises (λ p. p.z) points.now }
    requires limits { AllByRecursion IsPoint points.now }
    ensures area { IsQuotient (section_area points.now draft) result.area result.rise }
    ensures moment { IsQuotient (section_moment points.now draft) result.moment (3 * result.rise) }
{
    let mut area = 0;
    let mut moment = 0;
    let mut rest = points;
    while let [low, high, ..] = rest {
        let strip = Strip::between(low, high);
        if draft <= strip.foot {
            break;
        }
        if draft < strip.head {
            return strip.below(draft).above(area, moment);
        }
        area += strip.area();
        moment += strip.moment();
        rest = &rest[1..];
    }
    NOTHING.above(area, moment)
}
