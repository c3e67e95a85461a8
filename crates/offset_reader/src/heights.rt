// The heights of a station: their order, and the rows whose points are kept.
ghost use Rattle.std.specs.Prelude.{◌≡◌, ℕ, ◌==◌, IfErr, OnOk};
ghost use Rattle.std.specs.List.{list_all};
ghost use Rattle.offset_reader.specs.Heights as spec;
ghost use Rattle.offset_reader.specs.Points as points;

use crate::OffsetFault;
use crate::row::Row;

/// The rows whose points a station keeps: a flat bottom and a deck line keep their outer points.
#[tactic(auto, unfolding(crate::specs::Points::kept))]
pub(crate) fn kept_rows(station: &[Row]) -> &[Row]
    ensures { result.now ≡ points.kept station.now }
{
    below_deck(above_bottom(station))
}

/// The first height of a station that is out of order.
pub(crate) fn check_heights(station: &[Row]) -> Result<(), OffsetFault>
    ensures ok { OnOk result (spec.height_fault station.now ≡ None) }
    ensures err { IfErr result (λ e. spec.height_fault station.now ≡ Some e) }
{
    let mut rest = above_bottom(station);
    while let [before, this, ..] = rest {
        if this.z <= before.z {
            return if is_level(rest) {
                Ok(())
            } else {
                Err(OffsetFault::Height { row: this.number })
            };
        }
        rest = &rest[1..];
    }
    Ok(())
}

// Without its first rows that have the height of the row after them.
fn above_bottom(station: &[Row]) -> &[Row]
    ensures { result.now ≡ points.above_bottom station.now }
{
    let mut rest = station;
    while let [low, next, ..] = rest {
        if low.z != next.z {
            return rest;
        }
        rest = &rest[1..];
    }
    rest
}

// Without its last rows that have the height of the row before them.
fn below_deck(station: &[Row]) -> &[Row]
    ensures { result.now ≡ points.below_deck station.now }
{
    let mut rest = station;
    while let [.., next, high] = rest {
        if next.z != high.z {
            return rest;
        }
        rest = &rest[..rest.len() - 1];
    }
    rest
}

fn is_level(rows: &[Row]) -> bool
    ensures { result ≡ spec.is_level rows.now }
{
    match rows {
        [] => true,
        [first, rest @ ..] => has_height(rest, first.z),
    }
}

fn has_height(rows: &[Row], height: u32) -> bool
    ensures { result ≡ list_all (λ r. r.z == height) rows.now }
{
    rows.iter().all(|row| row.z == height)
}
