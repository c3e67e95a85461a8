// Rows of the table of levers.

use draft_bracket::Drafts;
use outward_interval::Span;

/// One whole degree of heel.
#[derive(Clone, Copy, Debug, PartialEq, Eq)]
pub struct Arm {
    /// The levels between which the ship floats, in grid units.
    pub drafts: Drafts,
    /// The righting levers in mm, port first: above 0 where they turn the ship upright.
    pub gz: [Span<20>; 2],
    /// The separations in mm, port first: how far the centre of the loading lies above the centre of buoyancy,
    /// square to the direction.
    pub sep: [Span<20>; 2],
}

/// The levers at the whole degrees of heel from 0 to 90, in this order.
#[derive(Clone, Copy, Debug, PartialEq, Eq)]
pub struct ArmTable {
    pub rows: [Arm; 91],
}

/// The ship upright.
#[derive(Clone, Copy, Debug, PartialEq, Eq)]
pub struct UprightRow {
    /// The levels between which the ship floats, in grid units.
    pub drafts: Drafts,
    /// The centre of buoyancy above the base, in mm.
    pub kb: Span<20>,
    /// The transverse metacentre above the centre of buoyancy, in mm.
    pub bm: Span<20>,
    /// The metacentre above the centre of the loading, in mm.
    pub gm: Span<20>,
}
