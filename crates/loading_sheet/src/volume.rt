// The volume of water that a mass displaces.
ghost use Rattle.std.specs.Prelude.{◌≡◌, ◌≤◌, ◌*◌, ◌^◌, pos};
ghost use Rattle.exact_fraction.specs.Fraction.{fraction_of};
ghost use Rattle.loading_sheet.specs.Centre.{displaced_by};

use exact_fraction::Ratio;
use hull_model::Water;

/// mm³ in a m³: a mass in kg times this, over a density in kg per m³, is a volume in mm³.
const CUBIC_MILLIMETRES: i128 = 1_000_000_000;

/// The volume of water in mm³ that a mass in kg displaces, exact; the mass is at most 2^36.
pub fn volume_displaced(mass: u64, water: &Water) -> Ratio
    requires { mass ≤ 2 ^ 36 }
    ensures same { fraction_of result ≡ displaced_by mass water.now }
    ensures numerator { result.num ≡ pos (mass * 10 ^ 9) }
    ensures denominator { result.den ≡ pos water.now.density }
{
    let kilograms = i128::from(mass);
    match Ratio::new(kilograms * CUBIC_MILLIMETRES, i128::from(water.density)) {
        Some(volume) => volume,
        None => unreachable!(),
    }
}
