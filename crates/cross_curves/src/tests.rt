// KN of a box of 100 m by 20 m by 10 m, half of it under water: nothing upright, half the depth on its side.
ghost use Rattle.draft_bracket.specs.DraftBracket.{IsNeed};

use crate::kn;
use angle_bounds::Degree;
use exact_fraction::Ratio;
use hull_model::{Hull, Point, Points, Station};
use hull_polyhedron::{Faces, faces_of};
use std::alloc::Global;
use std::process::Abort;
use std::test::Fail;

fn barge(alloc: Global) -> Result<Option<Faces>, Fail> {
    let mut stations = Vec::new(alloc);
    for x in [0, 50000, 100000] {
        let mut points = Vec::new(alloc);
        points.push(Point { y: 10000, z: 0 })?;
        points.push(Point { y: 10000, z: 10000 })?;
        stations.push(Station {
            x,
            points: Points::new(points),
        })?;
    }
    match Hull::of(stations) {
        Some(hull) => Ok(Some(faces_of(alloc, &hull)?)),
        None => Ok(None),
    }
}

fn need(rt: &impl Abort) -> Ratio
    ensures { IsNeed result }
{
    Ratio::new(10_000_000_000_000, 1).expect(rt, "within bounds")
}

#[test]
fn the_barge_upright_and_on_its_side(rt: HostRuntime) -> Result<(), Fail> {
    let faces = barge(rt.alloc())?.expect(&rt, "a hull");
    for (k, want) in [(0, 0), (90, 5000)] {
        let degree = Degree::new(k).expect(&rt, "at most 90");
        match kn(&faces, degree, &need(&rt)) {
            Ok(cell) => {
                let (lo, hi) = (cell.kn.lo(), cell.kn.hi());
                let want: i128 = want << 20;
                assert!(rt;
                    lo <= want && want <= hi && hi.saturating_sub(lo) <= 1 << 16,
                    "{k}: {lo} {hi}"
                );
            }
            Err(_) => assert!(rt; false, "{k}: too heavy"),
        }
    }
    Ok(())
}
