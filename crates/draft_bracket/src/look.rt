// One look at a level: the volumes there against the need.
ghost use Rattle.std.specs.Prelude.{◌≡◌, ◌↔◌, ◌≤◌, ◌^◌, true, ◌≤ℤ◌, ◌<ℤ◌, unsigned_abs};
ghost use Rattle.exact_algebra.proofs.Span.{ContainsFraction};
ghost use Rattle.exact_fraction.specs.Fraction.{fraction_of};
ghost use Rattle.outward_interval.specs.Widths.{IsNarrow};
ghost use Rattle.flux_moments.specs.declared.plane_box.PlaneBox.{PlaneBox};
ghost use Rattle.flux_moments.specs.Widths.{volume_bound};
ghost use Rattle.draft_bracket.specs.GridLevels as levels;
ghost use Rattle.hull_model.specs.LevelPlanes.{Direction};
ghost use Rattle.draft_bracket.specs.GridLevels.{LiesIn};
ghost use Rattle.draft_bracket.specs.DraftBracket.{OfHulls, IsBoxOf};
ghost use Rattle.draft_bracket.specs.Places.{IsPlace};

use crate::need::Need;
use crate::place::Place;
use angle_bounds::Bracket;
use flux_moments::{PlaneBox, volume_below};
use hull_polyhedron::Faces;
use outward_interval::Span;

/// The place at a level, and the enclosure of the volumes there.
pub(crate) fn look(faces: &Faces, bracket: &Bracket, need: &Need, level: i64) -> (Place, Span<20>)
    requires { unsigned_abs level ≤ 2 ^ 30 }
    ensures level { result.0.level ≡ level }
    ensures place { IsPlace faces.now bracket.now (fraction_of need.now.ratio) level result.0.is_over result.0.reaches }
{
    let volume = volume_at(faces, bracket, level);
    let place = Place {
        level,
        is_over: is_less(need.units.lo(), volume.hi()),
        reaches: is_at_most(need.units.hi(), volume.lo()),
    };
    (place, volume)
}

fn volume_at(faces: &Faces, bracket: &Bracket, level: i64) -> Span<20>
    requires { unsigned_abs level ≤ 2 ^ 30 }
    ensures contains { OfHulls faces.now (λ hull. (d : Direction) → LiesIn bracket.now d → ContainsFraction 20 result.lo result.hi (levels.volume_at hull d level)) }
    ensures narrow { (planes : PlaneBox) → IsBoxOf bracket.now level planes → IsNarrow 20 (volume_bound faces.now planes) result.lo result.hi }
{
    match PlaneBox::level(*bracket, level, level) {
        Some(planes) => volume_below(faces, &planes),
        None => unreachable!(),
    }
}

fn is_less(a: i128, b: i128) -> bool
    ensures { (result ≡ true) ↔ (a <ℤ b) }
{
    a < b
}

fn is_at_most(a: i128, b: i128) -> bool
    ensures { (result ≡ true) ↔ (a ≤ℤ b) }
{
    a <= b
}
