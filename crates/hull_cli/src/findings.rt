// Lines of marks and of the verdict.
ghost use Rattle.std.specs.Prelude.{◌≡◌, ◌<◌, ◌≤◌, IfOk, length};
ghost use Rattle.outward_interval.specs.Ends.{EndsBelow};
ghost use Rattle.hull_report.specs.Spelling.{AreLines, AreWords, IsLine, call_words, shown_words};
ghost use Rattle.intact_criteria.specs.Bounds.{IsBounded, IsBoundedVerdict};
ghost use Rattle.intact_criteria.specs.declared.finding.Shown.TheVariants as shown;
ghost use Rattle.hull_cli.specs.Sides as sides;
ghost use Rattle.hull_cli.specs.Stability as spec;
ghost use Rattle.hull_cli.specs.Stability.{AreMarkLines, IsCallOf, IsMarkLine, IsShownLine, IsVerdictLine, NamesCriterion};

use crate::units::{PLACES, TO_METRES};
use crate::version::tells_sides;
use exact_fraction::Memory;
use hull_report::{Call, Finding, Line, ShownLine, SideLine};
use intact_criteria::{Mark, Shown, Side, Verdict};
use outward_interval::Span;
use std::alloc::Global;

/// The marks of the six criteria.
pub(crate) fn mark_lines(alloc: Global, marks: &[Mark; 6]) -> Result<Vec<Line>, Memory>
    ensures lines { IfOk result (λ lines. AreMarkLines marks.now lines.items) }
    ensures grammar { IfOk result (λ lines. AreLines lines.items) }
{
    let mut lines = Vec::new(alloc);
    for place in 0..6 {
        lines.push(mark_line(marks, place))?;
    }
    Ok(lines)
}

fn mark_line(marks: &[Mark; 6], place: usize) -> Line
    requires { place < 6 }
    ensures line { IsMarkLine marks.now place result }
    ensures grammar { IsLine result }
{
    Line::Mark {
        criterion: place as u32 + 1,
        finding: finding_of(marks[place]),
    }
}

fn finding_of(mark: Mark) -> Finding
    ensures { result ≡ spec.finding_of mark }
{
    match mark {
        Mark::Holds => Finding::Holds,
        Mark::Fails => Finding::Fails,
        Mark::Unsure => Finding::Unsure,
    }
}

/// The verdict, in the words of a job's version.
pub(crate) fn verdict_line(version: u32, verdict: &Verdict) -> Line
    requires named { NamesCriterion verdict.now }
    requires bounded { IsBoundedVerdict verdict.now }
    ensures line { IsVerdictLine version verdict.now result }
    ensures grammar { IsLine result }
{
    Line::Verdict {
        call: call_of(version, verdict),
    }
}

fn call_of(version: u32, verdict: &Verdict) -> Call
    requires named { NamesCriterion verdict.now }
    requires bounded { IsBoundedVerdict verdict.now }
    ensures words { IsCallOf version verdict.now result }
    ensures grammar { AreWords (call_words result) }
{
    match *verdict {
        Verdict::Pass => Call::Pass,
        Verdict::Fail {
            criterion,
            side,
            shown,
        } => Call::Fail {
            criterion,
            side: named_side(version, side),
            shown: shown_line(&shown),
        },
        Verdict::Undecided {
            criterion,
            side,
            shown,
        } => Call::Undecided {
            criterion,
            side: named_side(version, side),
            shown: shown_line(&shown),
        },
    }
}

fn named_side(version: u32, side: Side) -> Option<SideLine>
    ensures { result ≡ sides.named_side version side }
{
    if !tells_sides(version) {
        return None;
    }
    Some(match side {
        Side::Port => SideLine::Port,
        Side::Starboard => SideLine::Starboard,
    })
}

fn shown_line(shown: &Shown) -> ShownLine
    requires { IsBounded shown.now }
    ensures words { IsShownLine shown.now result }
    ensures grammar { AreWords (shown_words result) }
{
    match *shown {
        Shown::Interval { degree, span } => interval(degree, span),
        Shown::Pair { low, high } => pair(low, high),
        Shown::Leak {
            opening,
            degree,
            span,
        } => leak(opening, degree, span),
    }
}

fn interval(degree: u32, span: Span<20>) -> ShownLine
    requires { EndsBelow 96 span.lo span.hi }
    ensures words { IsShownLine (shown.Interval degree span) result }
    ensures grammar { AreWords (shown_words result) }
{
    ShownLine::Interval {
        degree,
        figure: span.figure(TO_METRES, PLACES),
    }
}

fn pair(low: u32, high: u32) -> ShownLine
    ensures words { IsShownLine (shown.Pair low high) result }
    ensures grammar { AreWords (shown_words result) }
{
    ShownLine::Pair { low, high }
}

fn leak(opening: u32, degree: u32, span: Span<20>) -> ShownLine
    requires { EndsBelow 96 span.lo span.hi }
    ensures words { IsShownLine (shown.Leak opening degree span) result }
    ensures grammar { AreWords (shown_words result) }
{
    ShownLine::Leak {
        opening,
        degree,
        figure: span.figure(TO_METRES, PLACES),
    }
}
