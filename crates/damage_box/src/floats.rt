// What floats, seen by its residuals.
ghost use Rattle.std.specs.Prelude.{◌≡◌, true, false, ℤ, pos, ◌≤ℤ◌, ◌<ℤ◌};
ghost use Rattle.damage_box.specs.Balance.{Balance, Rises, IsLevel, IsHeight, mirrored};
ghost use Rattle.damage_box.specs.Reading.{IsReading, IsNeed};

use crate::reading::Reading;

/// A body that floats with a given load on upright planes of any slope.
pub(crate) trait Floats {
    /// Its exact residuals and its volume.
    ghost balance: { Self → Balance };

    /// The least height of the hull as a grid level.
    fn low(&self) -> i64
        ensures value { result ≡ (balance self.now).low }
        ensures height { IsHeight result };

    /// The greatest height of the hull as a grid level.
    fn high(&self) -> i64
        ensures value { result ≡ (balance self.now).high }
        ensures height { IsHeight result };

    /// How far apart the first and the last station lie, in mm.
    fn length(&self) -> i64;

    /// The volume that is needed, in units of 2^-20 rounded up.
    fn need(&self) -> i128
        ensures { IsNeed (balance self.now).need result };

    /// What is enclosed at the upright plane of level `a` at the first station and `f` at the last.
    fn read(&self, a: i64, f: i64) -> Reading
        requires a_level { IsLevel a }
        requires f_level { IsLevel f }
        ensures { IsReading (balance self.now) a f result };

    /// Both residuals rise with both levels.
    ghost rises: { (s : Self) → Rises (balance s) };

    ghost ordered: { (s : Self) → (balance s).low ≤ℤ (balance s).high };
}
