// A barge of 100 m by 20 m by 10 m that floats at 5 m with 10250 t, or at 8 m with 16400 t.
ghost use Rattle.std.specs.Prelude.{◌≤◌, IfOk, length};
ghost use Rattle.draft_bracket.specs.DraftBracket.{OfHulls};
ghost use Rattle.dynamic_lever.specs.declared.rows.ArmTable.{ArmTable};
ghost use Rattle.dynamic_lever.specs.declared.rows.UprightRow.{UprightRow};
ghost use Rattle.intact_criteria.specs.Right.{IsRightVerdict};
ghost use Rattle.intact_criteria.specs.Tables.{AreRowsOf};

use crate::finding::{Findings, Mark, Shown, Side, Verdict};
use crate::judge;
use Mark::{Fails, Holds};
use draft_bracket::TooHeavy;
use dynamic_lever::{arms, upright};
use hull_model::{Hull, Opening, Point, Points, Station, Water};
use hull_polyhedron::{Faces, faces_of};
use job_reader::Item;
use loading_sheet::{Loading, load};
use std::alloc::Global;
use std::test::Fail;

fn barge(alloc: Global) -> Result<Option<Faces>, Fail> {
    let mut stations = Vec::new(alloc);
    for x in [0, 50000, 100000] {
        let mut points = Vec::new(alloc);
        points.push(Point { y: 10000, z: 0 })?;
        points.push(Point { y: 10000, z: 10000 })?;
        stations.push(Station {
            x,
            points: Points::new(points),
        })?;
    }
    match Hull::of(stations) {
        Some(hull) => Ok(Some(faces_of(alloc, &hull)?)),
        None => Ok(None),
    }
}

fn loaded(mass: u64, y: i64, z: i64) -> Result<Loading, Fail> {
    if 1 <= mass && mass <= 1 << 36 && -65535 <= y && y <= 65535 && 0 <= z && z <= 65535 {
        let items = [Item {
            mass,
            x: 50000,
            y,
            z,
            free_surface: 0,
        }];
        Ok(load(&items).ok().ok_or("no loading")?)
    } else {
        Err("no mass")?
    }
}

const WATER: Water = Water {
    density: 1025,
    length_bp: 100000,
};

// What a caller has of the verdict, by the contracts of `arms`, `upright` and `judge` alone.
fn judged(
    faces: &Faces,
    loading: &Loading,
    water: &Water,
    openings: &[Opening],
) -> Result<Findings, TooHeavy>
    requires { length openings.now ≤ 64 }
    ensures { IfOk result (λ found. (arms : ArmTable) × (upright : UprightRow) × AreRowsOf faces.now loading.now water.now arms upright × OfHulls faces.now (λ hull. IsRightVerdict hull loading.now water.now arms upright openings.now found.verdict)) }
{
    match arms(faces, loading, water) {
        Ok(table) => match upright(faces, loading, water) {
            Ok(row) => Ok(judge(&table, &row, openings)),
            Err(e) => Err(e),
        },
        Err(e) => Err(e),
    }
}

fn judged_at(
    alloc: Global,
    mass: u64,
    y: i64,
    z: i64,
    openings: &[Opening],
) -> Result<Findings, Fail>
    requires { length openings.now ≤ 64 }
{
    let faces = barge(alloc)?.ok_or("no hull")?;
    let loading = loaded(mass, y, z)?;
    Ok(
        judged(&faces, &loading, &WATER, openings)
            .ok()
            .ok_or("too heavy")?,
    )
}

// The criterion, the side and the interval of a failing verdict.
fn failing_interval(verdict: Verdict) -> Option<(u32, Side, u32, i128, i128)> {
    match verdict {
        Verdict::Fail {
            criterion,
            side,
            shown,
        } => match shown {
            Shown::Interval { degree, span } => {
                Some((criterion, side, degree, span.lo(), span.hi()))
            }
            _ => None,
        },
        _ => None,
    }
}

#[test]
fn a_low_centre_passes(rt: HostRuntime) -> Result<(), Fail> {
    let found = judged_at(rt.alloc(), 10_250_000, 0, 7000, &[])?;
    assert!(rt; found.marks == [Holds; 6]);
    assert!(rt; found.verdict == Verdict::Pass);
    Ok(())
}

#[test]
fn a_centre_half_a_metre_to_starboard_passes(rt: HostRuntime) -> Result<(), Fail> {
    let found = judged_at(rt.alloc(), 10_250_000, 500, 7000, &[])?;
    assert!(rt; found.verdict == Verdict::Pass);
    Ok(())
}

// A metre to a side, the area up to 30 degrees on that side is below 0.
#[test]
fn a_centre_a_metre_to_starboard_or_to_port_fails_there(rt: HostRuntime) -> Result<(), Fail> {
    let found = judged_at(rt.alloc(), 10_250_000, 1000, 7000, &[])?;
    let (criterion, side, degree, _, hi) = failing_interval(found.verdict).ok_or("no interval")?;
    assert!(rt; criterion == 1 && side == Side::Starboard && degree == 30 && hi < 0);
    let found = judged_at(rt.alloc(), 10_250_000, -1000, 7000, &[])?;
    let (criterion, side, degree, _, hi) = failing_interval(found.verdict).ok_or("no interval")?;
    assert!(rt; criterion == 1 && side == Side::Port && degree == 30 && hi < 0);
    Ok(())
}

// GM is 2500 + 20000/3 - 9100 mm, 200/3.
#[test]
fn a_high_centre_fails_by_gm(rt: HostRuntime) -> Result<(), Fail> {
    let found = judged_at(rt.alloc(), 10_250_000, 0, 9100, &[])?;
    assert!(rt; found.marks == [Holds, Holds, Holds, Holds, Holds, Fails]);
    let (criterion, side, degree, lo, hi) = failing_interval(found.verdict).ok_or("no interval")?;
    assert!(rt; criterion == 6 && side == Side::Port && degree == 0);
    assert!(rt; lo <= 69905066 && 69905067 <= hi);
    Ok(())
}

// The edge of the deck comes under water between 26 and 27 degrees.
#[test]
fn an_opening_at_the_deck_s_edge_fails_by_a_leak(rt: HostRuntime) -> Result<(), Fail> {
    let openings = [Opening { y: 10000, z: 10000 }];
    let found = judged_at(rt.alloc(), 10_250_000, 0, 7000, &openings)?;
    assert!(rt; found.marks == [Holds, Holds, Fails, Holds, Holds, Holds]);
    let leak = match found.verdict {
        Verdict::Fail {
            criterion: 3,
            side: Side::Port,
            shown: Shown::Leak {
                opening,
                degree,
                span,
            },
        } => Some((opening, degree, span.lo())),
        _ => None,
    };
    let (opening, degree, lo) = leak.ok_or("no leak")?;
    assert!(rt; opening == 1 && degree == 27 && 0 < lo);
    Ok(())
}

// At 8 m the edge of the deck comes under early, and the greatest lever with it.
#[test]
fn a_deep_barge_fails_by_its_greatest_lever(rt: HostRuntime) -> Result<(), Fail> {
    let found = judged_at(rt.alloc(), 16_400_000, 0, 6300, &[])?;
    assert!(rt; found.marks == [Holds, Holds, Holds, Holds, Fails, Holds]);
    let pair = match found.verdict {
        Verdict::Fail {
            criterion: 5,
            side: Side::Port,
            shown: Shown::Pair { low, high },
        } => Some((low, high)),
        _ => None,
    };
    let (low, high) = pair.ok_or("no pair")?;
    assert!(rt; low < 25 && 25 <= high);
    Ok(())
}
