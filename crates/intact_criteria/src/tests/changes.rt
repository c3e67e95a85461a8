// What is found where the tables of a stiff ship are changed.
use super::{arms, judged, span};
use crate::finding::{Mark, Shown, Side, Verdict};
use crate::readings::arm_at;
use Call::{Fail, Pass, Undecided};
use Change::{Area, Lever, Unclear, Wet};
use Mark::{Fails, Holds, Unsure};
use Seen::{Interval, Leak, Pair};
use Side::{Port, Starboard};
use draft_bracket::Drafts;
use dynamic_lever::{Arm, ArmTable};
use outward_interval::Span;
use std::process::Abort;

// Levels that leave an opening at the centreplane, 5 m above the base, wet at each degree up to 40, or neither wet nor
// dry for certain at 33 degrees.
const WET: Drafts = Drafts {
    d1: 5121024,
    d2: 5122048,
};

const UNCLEAR: Drafts = Drafts {
    d1: 4293000,
    d2: 4295000,
};

// What is changed of a row: an area or a lever, in mm or mm·rad, or the levels.
#[derive(Clone, Copy)]
enum Change {
    Area(Side, i32, i32),
    Lever(Side, i32, i32),
    Wet,
    Unclear,
}

// From a degree to another.
type Rows = (u32, u32, Change);

// What a verdict shows: an interval at a degree, in mm or mm·rad; two degrees; or the depth of the second opening at a
// degree, in units of 2^-20 mm.
#[derive(Clone, Copy)]
enum Seen {
    Interval(u32, i32, i32),
    Pair(u32, u32),
    Leak(u32, i128, i128),
}

// A verdict, with the criterion and the side that decide.
#[derive(Clone, Copy)]
enum Call {
    Pass,
    Fail(u32, Side, Seen),
    Undecided(u32, Side, Seen),
}

// Changes, and what is found then.
struct Case {
    name: &'static str,
    changes: &'static [Rows],
    marks: [Mark; 6],
    call: Call,
}

// Depths of the leaks by exact fractions over the brackets of 20 and of 33 degrees.
const CASES: [Case; 12] = [
    Case {
        name: "a stiff ship",
        changes: &[],
        marks: [Holds, Holds, Holds, Holds, Holds, Holds],
        call: Pass,
    },
    Case {
        name: "the first area to port",
        changes: &[(30, 30, Area(Port, 54, 56))],
        marks: [Unsure, Holds, Holds, Holds, Holds, Holds],
        call: Undecided(1, Port, Interval(30, 54, 56)),
    },
    Case {
        name: "the first area on both sides",
        changes: &[
            (30, 30, Area(Port, 54, 56)),
            (30, 30, Area(Starboard, 50, 54)),
        ],
        marks: [Fails, Holds, Holds, Holds, Holds, Holds],
        call: Fail(1, Starboard, Interval(30, 50, 54)),
    },
    Case {
        name: "an area before a leak at 36",
        changes: &[(36, 36, Wet), (35, 35, Area(Port, 80, 80))],
        marks: [Holds, Fails, Fails, Holds, Holds, Holds],
        call: Fail(2, Port, Interval(35, 80, 80)),
    },
    Case {
        name: "an unclear leak at 33",
        changes: &[(33, 33, Unclear), (32, 32, Area(Starboard, 80, 80))],
        marks: [Holds, Unsure, Unsure, Holds, Holds, Holds],
        call: Undecided(2, Starboard, Leak(33, -1017394, 1030920)),
    },
    Case {
        name: "an unclear area before it",
        changes: &[(33, 33, Unclear), (32, 32, Area(Starboard, 80, 95))],
        marks: [Holds, Unsure, Unsure, Holds, Holds, Holds],
        call: Undecided(2, Starboard, Interval(32, 80, 95)),
    },
    Case {
        name: "a leak at 20",
        changes: &[(20, 20, Wet)],
        marks: [Holds, Holds, Fails, Holds, Holds, Holds],
        call: Fail(3, Port, Leak(20, 317232753, 318281538)),
    },
    Case {
        name: "a leak at 0",
        changes: &[(0, 0, Wet)],
        marks: [Holds, Fails, Fails, Holds, Holds, Holds],
        call: Fail(2, Port, Interval(0, 0, 0)),
    },
    Case {
        name: "levers below the limit",
        changes: &[
            (0, 90, Lever(Port, 100, 190)),
            (40, 40, Lever(Port, 100, 199)),
        ],
        marks: [Holds, Holds, Holds, Fails, Unsure, Holds],
        call: Fail(4, Port, Interval(40, 100, 199)),
    },
    Case {
        name: "a lever that may reach it",
        changes: &[
            (0, 90, Lever(Port, 100, 190)),
            (50, 50, Lever(Port, 199, 200)),
        ],
        marks: [Holds, Holds, Holds, Unsure, Holds, Holds],
        call: Undecided(4, Port, Interval(50, 199, 200)),
    },
    Case {
        name: "the greatest lever at 24",
        changes: &[(24, 24, Lever(Starboard, 501, 600))],
        marks: [Holds, Holds, Holds, Holds, Fails, Holds],
        call: Fail(5, Starboard, Pair(24, 50)),
    },
    Case {
        name: "a lever at 24 that may be the greatest",
        changes: &[(24, 24, Lever(Starboard, 500, 600))],
        marks: [Holds, Holds, Holds, Holds, Unsure, Holds],
        call: Undecided(5, Starboard, Pair(24, 50)),
    },
];

// Of two spans, port first, that of a side changed.
fn replaced(side: Side, spans: [Span<20>; 2], span: Span<20>) -> [Span<20>; 2] {
    match side {
        Port => [span, spans[1]],
        Starboard => [spans[0], span],
    }
}

fn changed_row(rt: &impl Abort, row: Arm, change: Change) -> Arm {
    match change {
        Area(side, lo, hi) => Arm {
            sep: replaced(side, row.sep, span(rt, lo, hi)),
            ..row
        },
        Lever(side, lo, hi) => Arm {
            gz: replaced(side, row.gz, span(rt, lo, hi)),
            ..row
        },
        Wet => Arm { drafts: WET, ..row },
        Unclear => Arm {
            drafts: UNCLEAR,
            ..row
        },
    }
}

fn set_rows(rt: &impl Abort, arms: &mut ArmTable, rows: Rows) {
    let (first, last, change) = rows;
    assert!(rt; last <= 90);
    for degree in first..last + 1 {
        arms.rows[degree as usize] = changed_row(rt, *arm_at(arms, degree), change);
    }
}

fn shown(rt: &impl Abort, seen: Seen) -> Shown {
    match seen {
        Interval(degree, lo, hi) => Shown::Interval {
            degree,
            span: span(rt, lo, hi),
        },
        Pair(low, high) => Shown::Pair { low, high },
        Leak(degree, lo, hi) => Shown::Leak {
            opening: 2,
            degree,
            span: Span::new(lo, hi).expect(rt, "a span"),
        },
    }
}

fn verdict(rt: &impl Abort, call: Call) -> Verdict {
    match call {
        Pass => Verdict::Pass,
        Fail(criterion, side, seen) => Verdict::Fail {
            criterion,
            side,
            shown: shown(rt, seen),
        },
        Undecided(criterion, side, seen) => Verdict::Undecided {
            criterion,
            side,
            shown: shown(rt, seen),
        },
    }
}

fn is_judged_so(rt: &impl Abort, case: &Case) -> bool {
    let mut arms = arms(rt);
    for rows in case.changes {
        set_rows(rt, &mut arms, *rows);
    }
    let found = judged(rt, &arms, span(rt, 200, 200));
    found.marks == case.marks && found.verdict == verdict(rt, case.call)
}

fn wrong_case(rt: &impl Abort) -> Option<&'static str> {
    for case in &CASES {
        if !is_judged_so(rt, case) {
            return Some(case.name);
        }
    }
    None
}

#[test]
fn changed_tables_are_judged(rt: HostRuntime) {
    assert_eq!(&rt; wrong_case(&rt), None);
}
