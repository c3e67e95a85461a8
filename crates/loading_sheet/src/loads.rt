// The loading that items make.
ghost use Rattle.std.specs.Prelude.{◌≡◌, ◌≤◌, ◌<◌, ◌↔◌, ◌*◌, ◌^◌, ℤ, pos, ◌+ℤ◌, ◌≤ℤ◌, length, IfOk, IfErr, IsOk};
ghost use Rattle.loading_sheet.specs.Loads.{IsLoadingOf, IsFaultOf};
ghost use Rattle.loading_sheet.specs.Sums.{total_mass};

use crate::sums::sums_of;
use crate::{LoadFault, Loading};
use job_reader::Item;

/// The greatest mass of a ship, in kg.
const MOST_MASS: u64 = 1 << 36;

/// A free surface moment in kg·m, in kg·mm.
const MILLIMETRES: i64 = 1000;

/// The loading that items make, at most 256 of them.
///
/// The sums are exact. A free surface raises the moment in height alone, by 1000 times its moment in kg·m.
pub fn load(items: &[Item]) -> Result<Loading, LoadFault>
    requires few { length items.now ≤ 256 }
    ensures loading { IfOk result (IsLoadingOf items.now) }
    ensures fault { IfErr result (IsFaultOf items.now) }
    ensures ok { IsOk result ↔ ((0 < total_mass items.now) × (total_mass items.now ≤ 2 ^ 36)) }
{
    let sums = sums_of(items);
    if sums.mass == 0 {
        return Err(LoadFault::NoMass);
    }
    if sums.mass > MOST_MASS {
        return Err(LoadFault::MassRange { sum: sums.mass });
    }
    Ok(Loading {
        mass: sums.mass,
        mx: sums.along as u64,
        my: sums.across,
        mz: raised(sums.height, sums.free),
    })
}

// The moment in height with the free surfaces in it.
fn raised(height: i64, free: u64) -> u64
    requires height { (pos 0 ≤ℤ height) × (height ≤ℤ pos (131071 * 2 ^ 36)) }
    requires free { free ≤ 2 ^ 44 }
    ensures value { pos result ≡ height +ℤ pos (1000 * free) }
    ensures small { result < 2 ^ 55 }
{
    (height + free as i64 * MILLIMETRES) as u64
}
