// What is found of a criterion: on one side, on both, and of all six.

use outward_interval::Span;

/// The side to which the ship heels; port is the side of negative y.
#[derive(Clone, Copy, Debug, PartialEq, Eq)]
pub enum Side {
    Port,
    Starboard,
}

/// What decides a mark: the interval of an area in mm·rad, of GZ or of GM in mm, at a degree; the levers at two degrees,
/// before 25 and from 25 on; or the depth in mm of an opening at a degree. Openings count from 1.
#[derive(Clone, Copy, Debug, PartialEq, Eq)]
pub enum Shown {
    Interval {
        degree: u32,
        span: Span<20>,
    },
    Pair {
        low: u32,
        high: u32,
    },
    Leak {
        opening: u32,
        degree: u32,
        span: Span<20>,
    },
}

/// Whether a criterion holds at every choice, fails at every choice, or neither is known.
#[derive(Clone, Copy, Debug, PartialEq, Eq)]
pub enum Mark {
    Holds,
    Fails,
    Unsure,
}

/// The verdict on all six criteria, which count from 1, with the side and what is shown of the one that decides.
#[derive(Clone, Copy, Debug, PartialEq, Eq)]
pub enum Verdict {
    Pass,
    Fail {
        criterion: u32,
        side: Side,
        shown: Shown,
    },
    Undecided {
        criterion: u32,
        side: Side,
        shown: Shown,
    },
}

/// The marks of the criteria C1 to C6, and the verdict.
#[derive(Clone, Copy, Debug, PartialEq, Eq)]
pub struct Findings {
    pub marks: [Mark; 6],
    pub verdict: Verdict,
}

/// What the rule of a criterion finds on one side.
#[derive(Clone, Copy, Debug, PartialEq, Eq)]
pub enum Finding {
    Holds,
    Fails(Shown),
    Unsure(Shown),
}

/// What is found on both sides, with the side that decides.
#[derive(Clone, Copy, Debug, PartialEq, Eq)]
pub enum Found {
    Holds,
    Fails(Side, Shown),
    Unsure(Side, Shown),
}
