// A flooded hull with its load.
ghost use Rattle.std.specs.Prelude.{◌≡◌, ◌⊎◌, ◌≤ℤ◌, pos, List, IfOk, IfErr};
ghost use Rattle.hull_model.specs.declared.station.Station.{Station};
ghost use Rattle.hull_model.specs.declared.water.Water.{Water};
ghost use Rattle.compartment_loss.specs.declared.flooded_hull.FloodedHull.{FloodedHull};
ghost use Rattle.loading_sheet.specs.declared.loading.Loading.{Loading};
ghost use Rattle.damage_box.specs.Faults.{IsFault};
ghost use Rattle.damage_box.specs.Residuals.{IsHullOf};
ghost use Rattle.damage_box.specs.SharpDamageBox.{IsSharpDamageBox, IsFaultOf};
ghost use Rattle.damage_box.specs.ShipBalance.{balance_of, balance-rises, balance-ordered};

use crate::floats::Floats;
use crate::moments::{needed, over_first, over_last, owed_about_first, owed_about_last};
use crate::reading::Reading;
use crate::settling::settled;
use crate::{DraftBox, SettleFault};
use compartment_loss::{FloodedHull, left_at};
use hull_model::Water;
use loading_sheet::Loading;
use outward_interval::Span;

/// Grid units in a mm.
const GRID: i64 = 1024;

/// The box of levels about the plane at which a flooded ship floats upright. There the moments of what is left of the hull,
/// about the first station and about the last, are those of the volume that the load displaces.
///
/// On the box's sides the residuals of these moments have opposite signs. No side can be moved inwards by a grid unit
/// without a residual there that is about 0. `Sinks` comes where the volume that is left of the whole hull is
/// enclosed below the one that the load displaces, and `NoStart` where none of sixteen planes of a tip shows the signs.
/// The ends of `left` lie below 2^96 units of 2^-20 mm³.
pub fn settle(
    flood: &FloodedHull,
    loading: &Loading,
    water: &Water,
) -> Result<DraftBox, SettleFault>
    ensures ok { (stations : List Station) → IsHullOf flood.now stations → IfOk result (λ d. IsSharpDamageBox flood.now loading.now water.now stations d) }
    ensures fault { (stations : List Station) → IsHullOf flood.now stations → IfErr result (λ e. IsFaultOf flood.now loading.now water.now stations e) }
{
    let ship = Ship {
        flood,
        loading,
        water,
    };
    match settled(&ship) {
        Ok(found) => Ok(found),
        Err(fault) => Err(from_base(fault)),
    }
}

/// The fault; of the volume of a ship that sinks, what lies below 0 isn't kept.
fn from_base(fault: SettleFault) -> SettleFault
    ensures { (flood : FloodedHull) (loading : Loading) (water : Water) (stations : List Station) → IsHullOf flood stations → IsFault (balance_of flood loading water) fault → IsFaultOf flood loading water stations result }
{
    match fault {
        SettleFault::Sinks { left } => SettleFault::Sinks {
            left: from_nought(left),
        },
        SettleFault::NoStart { tip, tried } => SettleFault::NoStart { tip, tried },
    }
}

/// The part of a volume's enclosure that isn't below 0.
fn from_nought(volume: Span<20>) -> Span<20>
    ensures hi { result.hi ≡ volume.hi }
    ensures lo { (result.lo ≡ volume.lo) ⊎ (result.lo ≡ pos 0) }
    ensures above { volume.lo ≤ℤ result.lo }
    ensures some { pos 0 ≤ℤ volume.hi → pos 0 ≤ℤ result.lo }
{
    match Span::new(volume.lo().max(0), volume.hi()) {
        Some(above) => above,
        None => volume,
    }
}

#[derive(Drop)]
struct Ship<'a> {
    flood: &'a FloodedHull<'a>,
    loading: &'a Loading,
    water: &'a Water,
}

impl Floats for Ship<'_> {
    ghost balance = { λ s. balance_of s.flood.now s.loading.now s.water.now };

    fn low(&self) -> i64 {
        self.flood.faces().low_z() * GRID
    }

    fn high(&self) -> i64 {
        self.flood.faces().high_z() * GRID
    }

    fn length(&self) -> i64 {
        self.flood.faces().last_x() - self.flood.faces().first_x()
    }

    fn need(&self) -> i128 {
        needed(self.loading, self.water)
    }

    fn read(&self, a: i64, f: i64) -> Reading {
        let left = left_at(self.flood, a, f);
        let last_x = self.flood.faces().last_x();
        let first_x = self.flood.faces().first_x();
        let owed_last = owed_about_last(self.loading, self.water, last_x);
        let owed_first = owed_about_first(self.loading, self.water, first_x);
        Reading {
            volume: left.volume,
            from_last: over_last(last_x, left.volume, left.mx, owed_last),
            from_first: over_first(first_x, left.volume, left.mx, owed_first),
        }
    }

    ghost rises = { λ s. balance-rises s.flood.now s.loading.now s.water.now };

    ghost ordered = { λ s. balance-ordered s.flood.now s.loading.now s.water.now };
}
