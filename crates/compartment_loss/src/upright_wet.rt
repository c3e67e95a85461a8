// The integrals of a wet body at an upright plane.
use outward_interval::Span;

/// The volume in mm³ of the part of a body that lies below an upright waterplane, and its integral of x in mm⁴.
#[derive(Clone, Copy, Debug, PartialEq, Eq)]
pub struct UprightWet {
    pub volume: Span<20>,
    pub mx: Span<20>,
}
