// Between what heights and half-breadths a hull lies.
ghost use Rattle.std.specs.Prelude.{◌≡◌};
ghost use Rattle.std.specs.Int.{int_min, int_max};
ghost use Rattle.hull_polyhedron.specs.Widening as widening;

use hull_model::{Point, Station};

/// The least and the greatest height and the greatest half-breadth of some points, in mm.
#[derive(Clone, Copy, Debug, PartialEq, Eq)]
pub(crate) struct Extent {
    pub low_z: i64,
    pub high_z: i64,
    pub half_breadth: i64,
}

impl Extent {
    pub(crate) fn at(point: &Point) -> Extent
        ensures { result ≡ widening.at point.now }
    {
        Extent {
            low_z: point.z,
            high_z: point.z,
            half_breadth: point.y,
        }
    }

    pub(crate) fn with_stations(self, stations: &[Station]) -> Extent
        ensures { result ≡ widening.with_stations self stations.now }
    {
        let mut extent = self;
        for station in stations {
            extent = extent.with_points(station.points.as_slice());
        }
        extent
    }

    fn with_points(self, points: &[Point]) -> Extent
        ensures { result ≡ widening.with_points self points.now }
    {
        let mut extent = self;
        for point in points {
            extent = extent.with_point(point);
        }
        extent
    }

    fn with_point(self, point: &Point) -> Extent
        ensures { result ≡ widening.with_point self point.now }
    {
        Extent {
            low_z: lesser(self.low_z, point.z),
            high_z: greater(self.high_z, point.z),
            half_breadth: greater(self.half_breadth, point.y),
        }
    }
}

fn lesser(a: i64, b: i64) -> i64
    ensures { result ≡ int_min a b }
{
    a.min(b)
}

fn greater(a: i64, b: i64) -> i64
    ensures { result ≡ int_max a b }
{
    a.max(b)
}
