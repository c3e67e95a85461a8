// The search: from two levels on either side of the need to two neighbours.
ghost use Rattle.std.specs.Prelude.{◌≡◌, ◌≤◌, ◌^◌, true, false, pos, ◌+ℤ◌, ◌≤ℤ◌, ◌<ℤ◌, unsigned_abs};
ghost use Rattle.exact_fraction.specs.Fraction.{fraction_of};
ghost use Rattle.draft_bracket.specs.Places as places;
ghost use Rattle.draft_bracket.specs.Places.{IsPlace};

use crate::Guess;
use crate::look::look;
use crate::need::Need;
use crate::place::{End, Place};
use angle_bounds::Bracket;
use hull_polyhedron::Faces;

/// Two neighbouring levels from `from` to `to`, of which the first is short of the need by this end and the second isn't.
///
/// No order of the volumes is asked for: each look replaces the level on its side, so both stay on their sides.
pub(crate) fn crossing(
    faces: &Faces,
    bracket: &Bracket,
    need: &Need,
    end: End,
    from: Place,
    to: Place,
    guess: &mut Guess,
) -> (Place, Place)
    requires order { from.level <ℤ to.level }
    requires first_range { unsigned_abs from.level ≤ 2 ^ 28 }
    requires last_range { unsigned_abs to.level ≤ 2 ^ 28 }
    requires first { IsPlace faces.now bracket.now (fraction_of need.now.ratio) from.level from.is_over from.reaches }
    requires last { IsPlace faces.now bracket.now (fraction_of need.now.ratio) to.level to.is_over to.reaches }
    requires first_side { places.is_short end from.is_over from.reaches ≡ true }
    requires last_side { places.is_short end to.is_over to.reaches ≡ false }
    ensures neighbours { result.1.level ≡ result.0.level +ℤ pos 1 }
    ensures from { from.level ≤ℤ result.0.level }
    ensures to { result.1.level ≤ℤ to.level }
    ensures first_range { unsigned_abs result.0.level ≤ 2 ^ 28 }
    ensures last_range { unsigned_abs result.1.level ≤ 2 ^ 28 }
    ensures first { IsPlace faces.now bracket.now (fraction_of need.now.ratio) result.0.level result.0.is_over result.0.reaches }
    ensures last { IsPlace faces.now bracket.now (fraction_of need.now.ratio) result.1.level result.1.is_over result.1.reaches }
    ensures first_side { places.is_short end result.0.is_over result.0.reaches ≡ true }
    ensures last_side { places.is_short end result.1.is_over result.1.reaches ≡ false }
{
    let mut low = from;
    let mut high = to;
    let mut turn = 0u32;
    while has_inner(low.level, high.level) {
        let wish = guess.level_at(turn, low.level, high.level);
        let level = inner(low.level, high.level, wish);
        turn = turn.saturating_add(1);
        let (place, volume) = look(faces, bracket, need, level);
        guess.learn(end, level, volume, need);
        if is_short(end, place.is_over, place.reaches) {
            low = place;
        } else {
            high = place;
        }
    }
    (low, high)
}

fn is_short(end: End, is_over: bool, reaches: bool) -> bool
    ensures { result ≡ places.is_short end is_over reaches }
{
    match end {
        End::Upper => !is_over,
        End::Lower => !reaches,
    }
}

// Whether some level lies between two.
fn has_inner(low: i64, high: i64) -> bool
    requires order { low <ℤ high }
    requires range { unsigned_abs low ≤ 2 ^ 28 }
    ensures some { result ≡ true → (low +ℤ pos 1) <ℤ high }
    ensures none { result ≡ false → high ≡ low +ℤ pos 1 }
{
    low + 1 < high
}

// The level between two that is nearest to a wish.
fn inner(low: i64, high: i64, wish: i64) -> i64
    requires some { (low +ℤ pos 1) <ℤ high }
    requires low_range { unsigned_abs low ≤ 2 ^ 28 }
    requires high_range { unsigned_abs high ≤ 2 ^ 28 }
    ensures above { low <ℤ result }
    ensures below { result <ℤ high }
    ensures range { unsigned_abs result ≤ 2 ^ 28 }
{
    wish.clamp(low + 1, high - 1)
}
