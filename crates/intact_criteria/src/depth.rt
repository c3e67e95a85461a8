// The depths of openings at the planes of a degree.
ghost use Rattle.std.specs.Prelude.{◌≡◌, ◌≤◌, ◌<◌, ◌^◌, pos, ◌+ℤ◌, ◌-ℤ◌, ◌*ℤ◌, ◌≤ℤ◌, length, unsigned_abs};
ghost use Rattle.exact_algebra.specs.Span.{floor_of, ceiling_of};
ghost use Rattle.intact_criteria.specs.Readings.{HasEnds, depth_of, depth_at};

use crate::brackets::bracket_at;
use crate::readings::{arm_at, opening_at};
use angle_bounds::Bracket;
use draft_bracket::Drafts;
use dynamic_lever::ArmTable;
use hull_model::Opening;
use outward_interval::Span;

/// The depth in mm of the opening at a place of the list, for all directions of a degree and all levels of its row.
pub(crate) fn depth(
    brackets: &[Bracket; 91],
    arms: &ArmTable,
    openings: &[Opening],
    place: usize,
    degree: u32,
) -> Span<20>
    requires place { place < length openings.now }
    requires degree { degree ≤ 90 }
    ensures { HasEnds (depth_at brackets.now arms.now openings.now place degree) result }
{
    depth_between(
        bracket_at(brackets, degree),
        &arm_at(arms, degree).drafts,
        opening_at(openings, place),
    )
}

/// The depth of an opening for all directions of a bracket and all levels from one to another.
fn depth_between(bracket: &Bracket, drafts: &Drafts, opening: &Opening) -> Span<20>
    ensures { HasEnds (depth_of bracket.now drafts.now opening.now) result }
{
    let least = depth_at_ends(drafts.d1, bracket.c.hi(), bracket.s.lo(), opening);
    let greatest = depth_at_ends(drafts.d2, bracket.c.lo(), bracket.s.hi(), opening);
    match Span::new(floor(least), ceiling(greatest)) {
        Some(span) => span,
        None => unreachable!(),
    }
}

// The level less c z - s y, in units of 2^-40 mm.
fn depth_at_ends(level: i64, cosine: i128, sine: i128, opening: &Opening) -> i128
    requires level { unsigned_abs level ≤ 2 ^ 28 }
    requires cosine { unsigned_abs cosine ≤ 2 ^ 40 }
    requires sine { unsigned_abs sine ≤ 2 ^ 40 }
    ensures value { result ≡ ((level *ℤ pos (2 ^ 30)) -ℤ (cosine *ℤ opening.now.z)) +ℤ (sine *ℤ opening.now.y) }
    ensures size { unsigned_abs result ≤ 2 ^ 59 }
{
    in_fine_units(level) - times(cosine, opening.z) + times(sine, opening.y)
}

fn in_fine_units(level: i64) -> i128
    requires { unsigned_abs level ≤ 2 ^ 28 }
    ensures value { result ≡ level *ℤ pos (2 ^ 30) }
    ensures size { unsigned_abs result ≤ 2 ^ 58 }
{
    i128::from(level) * (1 << 30)
}

fn times(part: i128, distance: i64) -> i128
    requires part { unsigned_abs part ≤ 2 ^ 40 }
    requires distance { unsigned_abs distance < 2 ^ 17 }
    ensures value { result ≡ part *ℤ distance }
    ensures size { unsigned_abs result ≤ 2 ^ 57 }
{
    part * i128::from(distance)
}

// From units of 2^-40 to units of 2^-20, downwards and upwards.
fn floor(n: i128) -> i128
    requires { unsigned_abs n ≤ 2 ^ 59 }
    ensures value { result ≡ floor_of n (2 ^ 20) }
    ensures size { unsigned_abs result ≤ 2 ^ 59 }
{
    n.div_euclid(1 << 20)
}

fn ceiling(n: i128) -> i128
    requires { unsigned_abs n ≤ 2 ^ 59 }
    ensures value { result ≡ ceiling_of n (2 ^ 20) }
    ensures size { unsigned_abs result ≤ 2 ^ 59 }
{
    -floor(-n)
}
