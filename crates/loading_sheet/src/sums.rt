// Sums over items.
ghost use Rattle.std.specs.Prelude.{◌≡◌, ◌≤◌, ◌+◌, ◌*◌, ◌^◌, ℤ, pos, ◌*ℤ◌, ◌+ℤ◌, ◌≤ℤ◌, true, length, unsigned_abs};
ghost use Rattle.loading_sheet.specs.Sums.{total_mass, total_free, moment_about, AreWithin};

use job_reader::Item;

/// The mass of items in kg, their moments in kg·mm along the ship, across it and in height, and their free surface moments
/// in kg·m.
#[derive(Clone, Copy)]
pub(crate) struct Sums {
    pub(crate) mass: u64,
    pub(crate) along: i64,
    pub(crate) across: i64,
    pub(crate) height: i64,
    pub(crate) free: u64,
    ghost within: { AreWithin mass along across height free },
}

/// The sums over items, exact.
pub(crate) fn sums_of(items: &[Item]) -> Sums
    requires few { length items.now ≤ 256 }
    ensures mass { result.mass ≡ total_mass items.now }
    ensures along { result.along ≡ moment_about (λ i. i.x) items.now }
    ensures across { result.across ≡ moment_about (λ i. i.y) items.now }
    ensures height { result.height ≡ moment_about (λ i. i.z) items.now }
    ensures free { result.free ≡ total_free items.now }
{
    let mut mass = 0;
    let mut along = 0;
    let mut across = 0;
    let mut height = 0;
    let mut free = 0;
    let mut rest = items;
    while let [item, after @ ..] = rest {
        mass += item.mass;
        along += moment(item.mass, item.x);
        across += moment(item.mass, item.y);
        height += moment(item.mass, item.z);
        free += item.free_surface;
        rest = after;
    }
    Sums {
        mass,
        along,
        across,
        height,
        free,
    }
}

// A mass times its distance from a plane.
fn moment(mass: u64, arm: i64) -> i64
    requires mass { mass ≤ 2 ^ 36 }
    requires arm { unsigned_abs arm ≤ 524287 }
    ensures value { result ≡ pos mass *ℤ arm }
    ensures small { unsigned_abs result ≤ 524287 * 2 ^ 36 }
{
    mass as i64 * arm
}
