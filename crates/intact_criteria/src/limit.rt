// An interval against a limit.
ghost use Rattle.std.specs.Prelude.{◌≡◌};
ghost use Rattle.intact_criteria.specs.Limit.{IsFoundAgainst};
ghost use Rattle.intact_criteria.specs.Readings.{ends_of};

use crate::finding::{Finding, Shown};
use outward_interval::Span;

/// The finding of a criterion that asks that one figure, enclosed at a degree, reaches a limit in units of 2^-20.
pub(crate) fn against_limit(limit: i128, degree: u32, span: Span<20>) -> Finding
    ensures { IsFoundAgainst limit degree (ends_of span) result }
{
    let shown = Shown::Interval { degree, span };
    if limit <= span.lo() {
        Finding::Holds
    } else if span.hi() < limit {
        Finding::Fails(shown)
    } else {
        Finding::Unsure(shown)
    }
}
