// The tests of a level: on a slope, and in a column.
ghost use Rattle.std.specs.Prelude.{◌≡◌, true, false, ℤ, pos, ◌+ℤ◌, ◌-ℤ◌, ◌≤ℤ◌, ◌<ℤ◌};
ghost use Rattle.damage_box.specs.Balance.{Balance, IsLevel, IsOnSlope, IsEnough, IsShort, IsLastKept, IsLastPassed, IsFirstKept, IsFirstPassed, HasSigns};
ghost use Rattle.damage_box.specs.Reading.{IsReading};

use crate::floats::Floats;
use crate::neighbours::{Look, Test};
use crate::reading::Reading;

pub(crate) fn is_at_most(a: i128, b: i128) -> bool
    ensures pass { result ≡ true → a ≤ℤ b }
    ensures fail { result ≡ false → b <ℤ a }
{
    a <= b
}

/// Whether the volume is enclosed at or above what is needed, and by how much.
fn enough<F: Floats>(floats: &F, a: i64, f: i64) -> Look
    requires a_level { IsLevel a }
    requires f_level { IsLevel f }
    ensures pass { result.is_passed ≡ true → IsEnough (F.balance floats.now) a f }
    ensures fail { result.is_passed ≡ false → IsShort (F.balance floats.now) a f }
{
    let reading = floats.read(a, f);
    let need = floats.need();
    let low = reading.volume.lo();
    Look {
        is_passed: is_at_most(need, low),
        over: low.saturating_sub(need),
    }
}

/// Whether the residual about the first station is enclosed at or above 0, and by how much.
pub(crate) fn first_kept<F: Floats>(floats: &F, a: i64, f: i64) -> Look
    requires a_level { IsLevel a }
    requires f_level { IsLevel f }
    ensures pass { result.is_passed ≡ true → IsFirstKept (F.balance floats.now) a f }
    ensures fail { result.is_passed ≡ false → IsFirstPassed (F.balance floats.now) a f }
{
    let reading = floats.read(a, f);
    let low = reading.from_first.lo();
    Look {
        is_passed: is_at_most(0, low),
        over: low,
    }
}

/// Whether the residual about the last station is enclosed at or below 0.
pub(crate) fn is_last_kept<F: Floats>(floats: &F, a: i64, f: i64) -> bool
    requires a_level { IsLevel a }
    requires f_level { IsLevel f }
    ensures pass { result ≡ true → IsLastKept (F.balance floats.now) a f }
    ensures fail { result ≡ false → IsLastPassed (F.balance floats.now) a f }
{
    let reading = floats.read(a, f);
    is_at_most(reading.from_last.hi(), 0)
}

/// Whether both residuals are enclosed at their sides of 0.
pub(crate) fn has_signs(reading: &Reading) -> bool
    ensures { (b : Balance) (a f : ℤ) → IsReading b a f reading.now → result ≡ true → HasSigns b a f }
{
    is_at_most(reading.from_last.hi(), 0) && is_at_most(0, reading.from_first.lo())
}

/// Whether the volume is enough at the plane from `level - half` to `level + half`.
#[derive(Drop)]
pub(crate) struct OnSlope<'a, F> {
    pub(crate) floats: &'a F,
    pub(crate) half: i64,
}

impl<F: Floats> Test for OnSlope<'_, F> {
    ghost can = { λ s m. IsOnSlope m s.half };

    ghost passes = { λ s m. IsEnough (F.balance s.floats.now) (m -ℤ s.half) (m +ℤ s.half) };

    ghost fails = { λ s m. IsShort (F.balance s.floats.now) (m -ℤ s.half) (m +ℤ s.half) };

    fn look(&self, level: i64) -> Look {
        enough(self.floats, level - self.half, level + self.half)
    }
}

/// Whether the residual about the first station isn't below 0 in the column `a`.
#[derive(Drop)]
pub(crate) struct InColumn<'a, F> {
    pub(crate) floats: &'a F,
    pub(crate) a: i64,
}

impl<F: Floats> Test for InColumn<'_, F> {
    ghost can = { λ s f. IsLevel s.a × IsLevel f };

    ghost passes = { λ s f. IsFirstKept (F.balance s.floats.now) s.a f };

    ghost fails = { λ s f. IsFirstPassed (F.balance s.floats.now) s.a f };

    fn look(&self, level: i64) -> Look {
        first_kept(self.floats, self.a, level)
    }
}
