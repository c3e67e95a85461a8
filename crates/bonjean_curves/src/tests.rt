// Sections worked by hand.
use crate::section;
use hull_model::{Hull, Point, Points, Station};
use std::alloc::{AllocError, Global};
use std::test::Fail;

// A station of two points.
fn station(alloc: Global, x: i64, low: Point, high: Point) -> Result<Station, AllocError> {
    let list = vec![in alloc; low, high]?;
    Ok(Station {
        x,
        points: Points::new(list),
    })
}

// A hull of three equal stations.
fn hull(alloc: Global, low: Point, high: Point) -> Result<Option<Hull>, AllocError> {
    let aft = station(alloc, 0, low, high)?;
    let midship = station(alloc, 1000, low, high)?;
    let fore = station(alloc, 2000, low, high)?;
    Ok(Hull::of(vec![in alloc; aft, midship, fore]?))
}

#[test]
fn half_a_barge_is_half_immersed(rt: HostRuntime) -> Result<(), Fail> {
    let low = Point { y: 10000, z: 0 };
    let high = Point { y: 10000, z: 10000 };
    let made = hull(rt.alloc(), low, high)?;
    assert!(rt; made.is_some());
    if let Some(barge) = made {
        let spans = section(&barge, 1, 5000);
        assert_eq!(rt; spans.area.lo(), 100_000_000 << 20);
        assert_eq!(rt; spans.area.hi(), 100_000_000 << 20);
        assert_eq!(rt; spans.moment.lo(), 250_000_000_000 << 20);
        assert_eq!(rt; spans.moment.hi(), 250_000_000_000 << 20);
    }
    Ok(())
}

// The moment of the wedge is two thirds of 10^9 mm³, between two neighbouring units.
#[test]
fn wedge_is_immersed_by_a_tenth(rt: HostRuntime) -> Result<(), Fail> {
    let low = Point { y: 0, z: 0 };
    let high = Point { y: 10000, z: 10000 };
    let made = hull(rt.alloc(), low, high)?;
    assert!(rt; made.is_some());
    if let Some(wedge) = made {
        let spans = section(&wedge, 1, 1000);
        assert_eq!(rt; spans.area.lo(), 1_000_000 << 20);
        assert_eq!(rt; spans.area.hi(), 1_000_000 << 20);
        assert_eq!(rt; spans.moment.lo(), 699_050_666_666_666);
        assert_eq!(rt; spans.moment.hi(), 699_050_666_666_667);
    }
    Ok(())
}
