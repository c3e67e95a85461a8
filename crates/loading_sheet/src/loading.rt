// The loading of a ship.
ghost use Rattle.std.specs.Prelude.{◌≡◌, ◌<◌, ◌*◌, ◌^◌, pos, unsigned_abs};
ghost use Rattle.exact_algebra.proofs.Fraction.{◌⊗◌, inverse};
ghost use Rattle.exact_algebra.proofs.Span.{IsLeastSpanOf};
ghost use Rattle.exact_algebra.proofs.Whole.{whole};
ghost use Rattle.exact_fraction.specs.Fraction.{fraction_of};
ghost use Rattle.loading_sheet.specs.Limits.{IsLoading};

use crate::volume_displaced;
use exact_fraction::Ratio;
use hull_model::Water;
use outward_interval::Span;

/// What is in a ship: its mass in kg, and its moments in kg·mm.
///
/// `mx` is about the plane x = 0, `my` about the centreplane, below 0 where the load is on the port side, and `mz` about
/// the base, with the free surfaces in it. It keeps that the mass is from 1 to 2^36, `mx` at most 524287 times the mass,
/// `my` at most 65535 times the mass in magnitude, and `mz` below 2^55.
#[derive(Clone, Copy, Debug, PartialEq, Eq)]
pub struct Loading {
    pub mass: u64,
    pub mx: u64,
    pub my: i64,
    pub mz: u64,
    ghost limits: { IsLoading mass mx my mz },
}

/// Why items are no loading.
#[derive(Clone, Copy, Debug, PartialEq, Eq)]
pub enum LoadFault {
    /// The masses sum to 0.
    NoMass,
    /// The masses sum to more than 2^36 kg; `sum` is their sum.
    MassRange { sum: u64 },
}

impl Loading {
    ghost use Rattle.loading_sheet.specs.Centre.{displaced, x_g, y_g, z_g};

    /// The volume of water in mm³ that the ship displaces.
    pub fn volume(&self, water: &Water) -> Ratio
        ensures same { fraction_of result ≡ displaced self.now water.now }
        ensures numerator { result.num ≡ pos (self.now.mass * 10 ^ 9) }
        ensures denominator { result.den ≡ pos water.now.density }
    {
        volume_displaced(self.mass, water)
    }

    /// The x of the centre in mm: the least span that contains it.
    pub fn lcg(&self) -> Span<20>
        ensures { IsLeastSpanOf 20 result.lo result.hi (x_g self.now) }
    {
        Span::of_ratio(&self.over_mass(i128::from(self.mx)))
    }

    /// The y of the centre in mm, below 0 on the port side: the least span that contains it.
    pub fn tcg(&self) -> Span<20>
        ensures { IsLeastSpanOf 20 result.lo result.hi (y_g self.now) }
    {
        Span::of_ratio(&self.over_mass(i128::from(self.my)))
    }

    /// The height of the centre in mm, with the free surfaces in it: the least span that contains it.
    pub fn kg(&self) -> Span<20>
        ensures { IsLeastSpanOf 20 result.lo result.hi (z_g self.now) }
    {
        Span::of_ratio(&self.over_mass(i128::from(self.mz)))
    }

    fn over_mass(&self, moment: i128) -> Ratio
        requires { unsigned_abs moment < 2 ^ 56 }
        ensures { fraction_of result ≡ whole moment ⊗ inverse (whole (pos self.now.mass)) }
    {
        match Ratio::new(moment, i128::from(self.mass)) {
            Some(ratio) => ratio,
            None => unreachable!(),
        }
    }
}
