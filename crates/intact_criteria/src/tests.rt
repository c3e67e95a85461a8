// The rules on tables made by hand, and on those of a barge.
mod barge;
mod changes;

ghost use Rattle.std.specs.Prelude.{◌≤◌, IsTrue};
ghost use Rattle.outward_interval.specs.Ends.{EndsBelow};
ghost use Rattle.dynamic_lever.specs.Sides.{AreSmallLevers};
ghost use Rattle.intact_criteria.specs.Tables.{IsSmallArm, AreSmallArms};

use crate::finding::{Findings, Mark, Shown, Side, Verdict};
use crate::judge;
use crate::readings::arm_at;
use Mark::{Fails, Holds, Unsure};
use draft_bracket::Drafts;
use dynamic_lever::{Arm, ArmTable, UprightRow};
use hull_model::Opening;
use outward_interval::Span;
use std::process::Abort;

// Levels that leave an opening at the centreplane, 5 m above the base, dry at each degree up to 40.
const DRY: Drafts = Drafts {
    d1: 1024000,
    d2: 1024000,
};

const OPENINGS: [Opening; 2] = [Opening { y: 0, z: 6000 }, Opening { y: 0, z: 5000 }];

fn span(rt: &impl Abort, lo: i32, hi: i32) -> Span<20> {
    let unit = 1 << 20;
    Span::new(i128::from(lo) * unit, i128::from(hi) * unit).expect(rt, "a span")
}

fn is_small(span: Span<20>) -> bool
    ensures { IsTrue result → EndsBelow 95 span.lo span.hi }
{
    span.lo().unsigned_abs() < 1 << 95 && span.hi().unsigned_abs() < 1 << 95
}

fn are_small_levers(spans: &[Span<20>; 2]) -> bool
    ensures { IsTrue result → AreSmallLevers spans.now }
{
    is_small(spans[0]) && is_small(spans[1])
}

fn is_small_arm(arm: &Arm) -> bool
    ensures { IsTrue result → IsSmallArm arm.now }
{
    are_small_levers(&arm.gz) && are_small_levers(&arm.sep)
}

fn are_small(arms: &ArmTable) -> bool
    ensures { IsTrue result → AreSmallArms arms.now }
{
    let _upright = arm_at(arms, 0);
    for degree in 0..91 {
        if !is_small_arm(arm_at(arms, degree)) {
            return false;
        }
    }
    true
}

// GZ rises by 10 mm a degree up to 50 and stays, the separation by 10 mm·rad a degree.
fn arms(rt: &impl Abort) -> ArmTable {
    let level = span(rt, 0, 0);
    let mut rows = [Arm {
        drafts: DRY,
        gz: [level, level],
        sep: [level, level],
    }; 91];
    for degree in 0..91usize {
        let n = degree as i32;
        let lever = span(rt, 10 * n.min(50), 10 * n.min(50));
        let area = span(rt, 10 * n, 10 * n);
        rows[degree] = Arm {
            drafts: DRY,
            gz: [lever, lever],
            sep: [area, area],
        };
    }
    ArmTable { rows }
}

fn judged(rt: &impl Abort, arms: &ArmTable, gm: Span<20>) -> Findings {
    let row = UprightRow {
        drafts: DRY,
        kb: gm,
        bm: gm,
        gm,
    };
    assert!(rt; are_small(arms) && is_small(gm));
    judge(arms, &row, &OPENINGS)
}

// The mark of C6 by the ends of GM, in units of 2^-20 mm, and whether the verdict shows them.
fn mark_by_gm(rt: &impl Abort, lo: i128, hi: i128) -> Mark {
    let gm = Span::new(lo, hi).expect(rt, "a span");
    let found = judged(rt, &arms(rt), gm);
    let (criterion, side, degree) = (6, Side::Port, 0);
    let shown = Shown::Interval { degree, span: gm };
    let mark = found.marks[5];
    let verdict = match mark {
        Holds => Verdict::Pass,
        Fails => Verdict::Fail {
            criterion,
            side,
            shown,
        },
        Unsure => Verdict::Undecided {
            criterion,
            side,
            shown,
        },
    };
    assert!(rt; found.verdict == verdict);
    mark
}

#[test]
fn gm_at_its_limit(rt: HostRuntime) {
    let limit = 150 << 20;
    assert!(&rt; mark_by_gm(&rt, limit, limit) == Holds);
    assert!(&rt; mark_by_gm(&rt, limit - 1, limit) == Unsure);
    assert!(&rt; mark_by_gm(&rt, limit - 1, limit - 1) == Fails);
}
