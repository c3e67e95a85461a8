// The line on the hull.
ghost use Rattle.std.specs.Prelude.{◌≡◌};
ghost use Rattle.hull_model.specs.Body.{IsHull};
ghost use Rattle.hull_report.specs.Spelling.{IsLine};
ghost use Rattle.hull_cli.specs.Report as report;
ghost use Rattle.hull_cli.specs.Report.{points_count};

use hull_model::{Hull, Station};
use hull_report::Line;

/// The line with the numbers of stations and points.
pub(crate) fn hull_line(hull: &Hull) -> Line
    ensures line { result ≡ report.hull_line hull.now }
    ensures kept { IsHull hull.now }
    ensures grammar { IsLine result }
{
    let stations = hull.stations();
    Line::Hull {
        stations: stations.len() as u32,
        points: points_of(stations),
    }
}

// The number of points that stations keep.
fn points_of(stations: &[Station]) -> u32
    requires { IsHull stations.now }
    ensures { result ≡ points_count stations.now }
{
    let mut points = 0;
    let mut rest = stations;
    while let [station, after @ ..] = rest {
        points += station.points.as_slice().len() as u32;
        rest = after;
    }
    points
}
