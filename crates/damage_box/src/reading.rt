// What is read at one plane.
use outward_interval::Span;

/// The volume and both residuals at one upright plane, enclosed.
#[derive(Clone, Copy, Debug)]
pub(crate) struct Reading {
    pub(crate) volume: Span<20>,
    pub(crate) from_last: Span<20>,
    pub(crate) from_first: Span<20>,
}

/// A corner from which the search for a box may start: its level `a` at the first station and `f` at the last in grid
/// units of 1/1024 mm, and the enclosures of both residuals there in mm⁴, `r1` about the last station and `r2` about
/// the first.
#[derive(Clone, Copy, Debug, PartialEq, Eq)]
pub struct Corner {
    pub a: i64,
    pub f: i64,
    pub r1: Span<20>,
    pub r2: Span<20>,
}

/// Levels at the first and at the last station.
#[derive(Clone, Copy, Debug)]
pub(crate) struct Place {
    pub(crate) a: i64,
    pub(crate) f: i64,
}
