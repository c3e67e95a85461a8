// The lines of a report.
use crate::names::{Command, Finding, SideLine};
use outward_interval::Figure;

/// Where a criterion was lost or is unsure: degrees of heel, or leaves between the directions of two numbers, from 0 to
/// 16777216. Levers in m, areas in m·rad, with 6 decimals.
#[derive(Clone, Copy, Debug, PartialEq, Eq)]
pub enum ShownLine {
    Interval {
        degree: u32,
        figure: Figure,
    },
    Pair {
        low: u32,
        high: u32,
    },
    Leak {
        opening: u32,
        degree: u32,
        figure: Figure,
    },
    Heel {
        q: u32,
        q2: u32,
        figure: Figure,
    },
    Heels {
        q: u32,
        q2: u32,
        p: u32,
        p2: u32,
    },
}

/// The verdict over all criteria. A criterion is a number from 1 to 6. Version 2 names the side.
#[derive(Clone, Copy, Debug, PartialEq, Eq)]
pub enum Call {
    Pass,
    Fail {
        criterion: u32,
        side: Option<SideLine>,
        shown: ShownLine,
    },
    Undecided {
        criterion: u32,
        side: Option<SideLine>,
        shown: ShownLine,
    },
}

/// The sides of a box of waterplanes, in grid units: the levels aft and at the fore end.
#[derive(Clone, Copy, Debug, PartialEq, Eq)]
pub struct Sides {
    pub a1: i64,
    pub a2: i64,
    pub f1: i64,
    pub f2: i64,
}

/// Where a ship comes to rest, damaged or not. What is left over is in m³, with 6 decimals.
#[derive(Clone, Copy, Debug, PartialEq, Eq)]
pub enum CaseEnd {
    Settled { sides: Sides },
    Sinks { left: Figure },
    NoStartFore,
    NoStartAft,
}

/// A safe length in mm, and the box of its waterplanes.
#[derive(Clone, Copy, Debug, PartialEq, Eq)]
pub struct SafeBox {
    pub length: u32,
    pub sides: Sides,
}

/// Why the next length isn't safe. Stations count from 0.
#[derive(Clone, Copy, Debug, PartialEq, Eq)]
pub enum ReasonLine {
    Over { station: u32, sides: Sides },
    Touch { station: u32, sides: Sides },
    Sinks,
    NoStart,
    EndOfShip,
}

/// Why a greater height of the centre of gravity isn't safe. A criterion is a number from 1 to 6.
#[derive(Clone, Copy, Debug, PartialEq, Eq)]
pub enum LimitLine {
    EndOfRange,
    Fail { criterion: u32, shown: ShownLine },
    Undecided { criterion: u32, shown: ShownLine },
}

/// A line of a report, with its fields in the order of its text.
///
/// Figures have 6 decimals, the moment of a section 9.
#[derive(Clone, Copy, Debug, PartialEq, Eq)]
pub enum Line {
    /// The first line: the version, 1 or 2, and the command.
    Header {
        version: u32,
        command: Command,
    },
    /// The numbers of stations and of points as kept.
    Hull {
        stations: u32,
        points: u32,
    },
    /// Six times the hull's volume in mm³.
    Body {
        six: i128,
    },
    /// A draft in mm, and there VOLUME in m³, DISPLACEMENT in t, LCB and KB in m, AREA in m², LCF, BMT, BML and KMT
    /// in m, TPC in t/cm, MCT in t·m/cm. Absent may be LCB, KB, LCF, BMT, BML, KMT and MCT.
    Hydro {
        draft: u32,
        figures: [Option<Figure>; 11],
    },
    /// A station from 0, its x and the draft in mm, the area in m² and its moment in m³.
    Section {
        station: u32,
        x: u32,
        draft: u32,
        area: Figure,
        moment: Figure,
    },
    /// A mass in kg, a degree of heel, the draft bracket in grid units, KN in m.
    Cross {
        mass: u64,
        degree: u32,
        d1: i64,
        d2: i64,
        kn: Figure,
    },
    /// The mass in kg, and the centre of gravity's x and height in m.
    Load {
        mass: u64,
        lcg: Figure,
        kg: Figure,
    },
    /// The same in version 2: the mass in kg, and the centre of gravity's x, y and height in m.
    Load2 {
        mass: u64,
        lcg: Figure,
        tcg: Figure,
        kg: Figure,
    },
    /// The draft bracket in grid units, and KB, BM and GM in m.
    Upright {
        d1: i64,
        d2: i64,
        kb: Figure,
        bm: Figure,
        gm: Figure,
    },
    /// A degree of heel, the draft bracket in grid units, GZ in m and the area below GZ in m·rad.
    Arm {
        degree: u32,
        d1: i64,
        d2: i64,
        gz: Figure,
        area: Figure,
    },
    /// The same in version 2: a degree of heel, the draft bracket in grid units, and of each side GZ in m and the area
    /// below GZ in m·rad.
    Arm2 {
        degree: u32,
        d1: i64,
        d2: i64,
        port_gz: Figure,
        port_area: Figure,
        star_gz: Figure,
        star_area: Figure,
    },
    /// What was found of a criterion from 1 to 6.
    Mark {
        criterion: u32,
        finding: Finding,
    },
    /// The verdict over all criteria.
    Verdict {
        call: Call,
    },
    /// A damage case from 1, and how it ends.
    Damage {
        case: u32,
        end: CaseEnd,
    },
    /// The greatest safe length about a centre in mm, where there is one.
    Safe {
        centre: u32,
        reach: Option<SafeBox>,
    },
    /// The next length about a centre, both in mm, and why it isn't safe.
    Next {
        centre: u32,
        length: u32,
        reason: ReasonLine,
    },
    /// A compartment from 1, the level in mm, its contents up to there in m³, their centre's x and height in m where
    /// there is one, and the inertia of their surface in m⁴.
    Tank {
        compartment: u32,
        level: u32,
        volume: Figure,
        lcg: Option<Figure>,
        kg: Option<Figure>,
        inertia: Figure,
    },
    /// Where the ship floats in still water.
    Float {
        end: CaseEnd,
    },
    /// A station from 0, its x in mm, the shear in t and the bending moment in t·m.
    Strength {
        station: u32,
        x: u32,
        shear: Figure,
        bend: Figure,
    },
    /// A damage case from 1, a degree of heel, the draft bracket in grid units, and of each side GZ in m and the area
    /// below GZ in m·rad.
    FloodedArm {
        case: u32,
        degree: u32,
        d1: i64,
        d2: i64,
        port_gz: Figure,
        port_area: Figure,
        star_gz: Figure,
        star_area: Figure,
    },
    /// A damage case from 1, the first degree of heel at which too little is left, and what is left there in m³.
    FloodedShort {
        case: u32,
        degree: u32,
        left: Figure,
    },
    /// The first line of a report of limiting heights.
    LimitsHead,
    /// A mass in kg, and the greatest height of the centre of gravity found safe, in mm, where there is one.
    Limit {
        mass: u64,
        height: Option<u32>,
    },
    /// A mass in kg, the next height of the centre of gravity in mm, and why it isn't safe.
    Beyond {
        mass: u64,
        height: u32,
        why: LimitLine,
    },
    /// The number of lines, this one among them.
    End {
        lines: u32,
    },
}
