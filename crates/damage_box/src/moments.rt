// The moments of what is left of a flooded hull, and those that its load owes.
ghost use Rattle.std.specs.Prelude.{◌≡◌, ◌<◌, ◌≤◌, ◌*◌, ◌^◌, ℤ, pos, ◌+ℤ◌, ◌-ℤ◌, ◌*ℤ◌, ◌≤ℤ◌, ◌<ℤ◌, List, unsigned_abs};
ghost use Rattle.exact_algebra.proofs.Fraction.{Fraction, ◌⊗◌, ◌⊖◌, inverse};
ghost use Rattle.exact_algebra.proofs.Span.{ContainsFraction, IsLeastSpanOf};
ghost use Rattle.exact_algebra.proofs.Whole.{whole};
ghost use Rattle.exact_fraction.specs.Bounds.{MagnitudeBelow};
ghost use Rattle.outward_interval.specs.Ends.{EndsBelow};
ghost use Rattle.loading_sheet.specs.Centre.{displaced, x_g};
ghost use Rattle.damage_box.specs.Planes.{IsPlace};
ghost use Rattle.damage_box.specs.Reading.{IsNeed};

use exact_fraction::Ratio;
use hull_model::Water;
use loading_sheet::Loading;
use outward_interval::Span;

/// mm³ in a m³.
const CUBIC_MILLIMETRES: i128 = 1_000_000_000;

/// The moment of a volume at a place.
fn at_place(volume: Span<20>, x: i64) -> Span<20>
    requires place { IsPlace x }
    requires volume { EndsBelow 102 volume.lo volume.hi }
    ensures ends { EndsBelow 121 result.lo result.hi }
    ensures contains { (v : Fraction) → ContainsFraction 20 volume.lo volume.hi v → ContainsFraction 20 result.lo result.hi (whole x ⊗ v) }
    ensures width { result.hi -ℤ result.lo ≡ x *ℤ (volume.hi -ℤ volume.lo) }
{
    volume.times_whole(i128::from(x))
}

/// By how much the moment of what is left about the last station is above what is owed.
pub(crate) fn over_last(last_x: i64, volume: Span<20>, mx: Span<20>, owed: Span<20>) -> Span<20>
    requires place { IsPlace last_x }
    requires volume { EndsBelow 102 volume.lo volume.hi }
    requires mx { EndsBelow 122 mx.lo mx.hi }
    requires owed { EndsBelow 108 owed.lo owed.hi }
    ensures contains { (v m o : Fraction) → ContainsFraction 20 volume.lo volume.hi v → ContainsFraction 20 mx.lo mx.hi m → ContainsFraction 20 owed.lo owed.hi o → ContainsFraction 20 result.lo result.hi ((whole last_x ⊗ v ⊖ m) ⊖ o) }
    ensures width { result.hi -ℤ result.lo ≡ (last_x *ℤ (volume.hi -ℤ volume.lo) +ℤ (mx.hi -ℤ mx.lo)) +ℤ (owed.hi -ℤ owed.lo) }
{
    at_place(volume, last_x) - mx - owed
}

/// By how much the moment of what is left about the first station is above what is owed.
pub(crate) fn over_first(first_x: i64, volume: Span<20>, mx: Span<20>, owed: Span<20>) -> Span<20>
    requires place { IsPlace first_x }
    requires volume { EndsBelow 102 volume.lo volume.hi }
    requires mx { EndsBelow 122 mx.lo mx.hi }
    requires owed { EndsBelow 108 owed.lo owed.hi }
    ensures contains { (v m o : Fraction) → ContainsFraction 20 volume.lo volume.hi v → ContainsFraction 20 mx.lo mx.hi m → ContainsFraction 20 owed.lo owed.hi o → ContainsFraction 20 result.lo result.hi ((m ⊖ whole first_x ⊗ v) ⊖ o) }
    ensures width { result.hi -ℤ result.lo ≡ (first_x *ℤ (volume.hi -ℤ volume.lo) +ℤ (mx.hi -ℤ mx.lo)) +ℤ (owed.hi -ℤ owed.lo) }
{
    mx - at_place(volume, first_x) - owed
}

/// The volume that the load displaces, in units of 2^-20 mm³ rounded up.
pub(crate) fn needed(loading: &Loading, water: &Water) -> i128
    ensures { IsNeed (displaced loading.now water.now) result }
{
    let volume = Span::<20>::of_ratio(&loading.volume(water));
    volume.hi()
}

/// The moment about the last station that the load owes.
pub(crate) fn owed_about_last(loading: &Loading, water: &Water, last_x: i64) -> Span<20>
    requires place { IsPlace last_x }
    ensures owed { IsLeastSpanOf 20 result.lo result.hi (displaced loading.now water.now ⊗ (whole last_x ⊖ x_g loading.now)) }
    ensures width { (result.hi -ℤ result.lo) ≤ℤ pos 1 }
    ensures ends { EndsBelow 108 result.lo result.hi }
{
    owed(moment_behind(loading, last_x), water)
}

/// The moment about the first station that the load owes.
pub(crate) fn owed_about_first(loading: &Loading, water: &Water, first_x: i64) -> Span<20>
    requires place { IsPlace first_x }
    ensures owed { IsLeastSpanOf 20 result.lo result.hi (displaced loading.now water.now ⊗ (x_g loading.now ⊖ whole first_x)) }
    ensures width { (result.hi -ℤ result.lo) ≤ℤ pos 1 }
    ensures ends { EndsBelow 108 result.lo result.hi }
{
    owed(moment_before(loading, first_x), water)
}

/// The moment of the load in kg·mm about a place, for which what lies aft of it counts.
fn moment_behind(loading: &Loading, x: i64) -> i128
    requires { IsPlace x }
    ensures value { result ≡ (x *ℤ pos loading.now.mass) -ℤ pos loading.now.mx }
    ensures size { MagnitudeBelow 57 result }
{
    i128::from(x) * i128::from(loading.mass) - i128::from(loading.mx)
}

/// The same, for which what lies forward of it counts.
fn moment_before(loading: &Loading, x: i64) -> i128
    requires { IsPlace x }
    ensures value { result ≡ pos loading.now.mx -ℤ (x *ℤ pos loading.now.mass) }
    ensures size { MagnitudeBelow 57 result }
{
    i128::from(loading.mx) - i128::from(x) * i128::from(loading.mass)
}

/// The least span of a moment of the load in mm⁴ of water, from the one in kg·mm.
fn owed(moment: i128, water: &Water) -> Span<20>
    requires { MagnitudeBelow 57 moment }
    ensures owed { IsLeastSpanOf 20 result.lo result.hi (whole (moment *ℤ pos (10 ^ 9)) ⊗ inverse (whole (pos water.now.density))) }
    ensures width { (result.hi -ℤ result.lo) ≤ℤ pos 1 }
    ensures ends { EndsBelow 108 result.lo result.hi }
{
    match Ratio::new(moment * CUBIC_MILLIMETRES, i128::from(water.density)) {
        Some(owed) => Span::of_ratio(&owed),
        None => unreachable!(),
    }
}
