// Boxes of waterplanes.
ghost use Rattle.std.specs.Prelude.{◌≡◌, ◌↔◌, ◌≤◌, ◌^◌, IsSome, IfSome, IsTrue, unsigned_abs};
ghost use Rattle.flux_moments.specs.Limits.{AreLevels};

use angle_bounds::{Bracket, Triple, exact};

/// The greatest magnitude of a level, in grid units of 1/1024 mm.
const MOST_LEVEL: u64 = 1 << 30;

const UPRIGHT: Triple = Triple { c: 1, s: 0, r: 1 };

/// All waterplanes with a direction in a bracket, a level from `a1` to `a2` at the first station and one from `f1`
/// to `f2` at the last.
///
/// Levels are in grid units of 1/1024 mm, and linear between the first station and the last. It keeps `a1 ≤ a2` and
/// `f1 ≤ f2`, and that no level is above 2^30 in magnitude.
#[derive(Clone, Copy, Debug, PartialEq, Eq)]
pub struct PlaneBox {
    pub bracket: Bracket,
    pub a1: i64,
    pub a2: i64,
    pub f1: i64,
    pub f2: i64,
    ghost levels: { AreLevels a1 a2 f1 f2 },
}

impl PlaneBox {
    /// The upright planes with these levels: Some exactly where `a1 ≤ a2`, `f1 ≤ f2`, and no level is above 2^30 in
    /// magnitude.
    pub fn upright(a1: i64, a2: i64, f1: i64, f2: i64) -> Option<PlaneBox>
        ensures some { IsSome result ↔ AreLevels a1 a2 f1 f2 }
        ensures same { IfSome result (λ b. (b.a1 ≡ a1) × (b.a2 ≡ a2) × (b.f1 ≡ f1) × (b.f2 ≡ f2)) }
        ensures direction { IfSome result (λ b. (b.bracket.low.c ≡ 1) × (b.bracket.low.s ≡ 0) × (b.bracket.low.r ≡ 1) × (b.bracket.high ≡ b.bracket.low)) }
    {
        PlaneBox::of(exact(UPRIGHT), a1, a2, f1, f2)
    }

    /// The planes of a bracket with levels from `d1` to `d2` at the first station and at the last: Some exactly where
    /// `d1 ≤ d2`, and neither is above 2^30 in magnitude.
    pub fn level(bracket: Bracket, d1: i64, d2: i64) -> Option<PlaneBox>
        ensures some { IsSome result ↔ AreLevels d1 d2 d1 d2 }
        ensures same { IfSome result (λ b. (b.bracket ≡ bracket) × (b.a1 ≡ d1) × (b.a2 ≡ d2) × (b.f1 ≡ d1) × (b.f2 ≡ d2)) }
    {
        PlaneBox::of(bracket, d1, d2, d1, d2)
    }

    fn of(bracket: Bracket, a1: i64, a2: i64, f1: i64, f2: i64) -> Option<PlaneBox>
        ensures some { IsSome result ↔ AreLevels a1 a2 f1 f2 }
        ensures same { IfSome result (λ b. (b.bracket ≡ bracket) × (b.a1 ≡ a1) × (b.a2 ≡ a2) × (b.f1 ≡ f1) × (b.f2 ≡ f2)) }
    {
        if a1 <= a2 && f1 <= f2 && is_level(a1) && is_level(a2) && is_level(f1) && is_level(f2) {
            Some(PlaneBox {
                bracket,
                a1,
                a2,
                f1,
                f2,
            })
        } else {
            None
        }
    }
}

fn is_level(level: i64) -> bool
    ensures { IsTrue result ↔ (unsigned_abs level ≤ 2 ^ 30) }
{
    level.unsigned_abs() <= MOST_LEVEL
}
