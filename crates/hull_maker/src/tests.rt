use crate::{made_hull, made_job};
use std::test::Fail;

#[test]
fn the_first_and_the_last_point_have_their_draws(rt: HostRuntime) -> Result<(), Fail> {
    for (seed, first_y, last_y) in [(0, 170, 883), (1, 196, 809), (4294967295, 145, 822)] {
        let hull = made_hull(rt.alloc(), seed)?;
        assert_eq!(rt; hull.stations().len(), 41);
        for station in hull.stations() {
            assert_eq!(rt; station.points.as_slice().len(), 16);
        }
        let [aft, .., fore] = hull.stations() else {
            return Err("no stations".into());
        };
        assert_eq!(rt; (aft.x, fore.x), (0, 100000));
        let [first, ..] = aft.points.as_slice() else {
            return Err("no first point".into());
        };
        let [.., last] = fore.points.as_slice() else {
            return Err("no last point".into());
        };
        assert_eq!(rt; (first.y, first.z), (first_y, 0));
        assert_eq!(rt; (last.y, last.z), (last_y, 9000));
    }
    Ok(())
}

#[test]
fn the_job_has_one_item_and_floods_one_slab(rt: HostRuntime) -> Result<(), Fail> {
    let job = made_job(rt.alloc())?;
    let [ship] = job.items.as_slice() else {
        return Err("not one item".into());
    };
    assert_eq!(rt; ship.mass, 4000000);
    let [case] = job.damages.as_slice() else {
        return Err("not one case".into());
    };
    assert_eq!(rt; case.slabs.as_slice().len(), 1);
    Ok(())
}
