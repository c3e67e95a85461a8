// Lengths about a centre.
ghost use Rattle.std.specs.Prelude.{◌≡◌, ◌⊎◌, ◌≤◌, ℤ, pos, ◌+ℤ◌, ◌-ℤ◌, ◌*ℤ◌, ◌≤ℤ◌, ◌<ℤ◌, unsigned_abs};
ghost use Rattle.hull_model.specs.Limits.{IsSlab};
ghost use Rattle.floodable_length.specs.Lengths.{AreLengths, IsWithinEnds, IsSlabOf, IsPastEnd, twice};

use crate::products::{floor_div, product};
use hull_model::Slab;

/// Slabs with one centre in their middle, whose lengths are multiples of a step, within the stations from `first` to `last`.
///
/// Lengths are in mm and half of the step is kept, so that the ends of the slabs are whole.
#[derive(Clone, Copy, Debug)]
pub(crate) struct Lengths {
    pub(crate) first: i64,
    pub(crate) last: i64,
    pub(crate) centre: i64,
    pub(crate) half_step: i64,
    pub(crate) permeability: u32,
    ghost limits: { AreLengths first last centre half_step permeability },
}

impl Lengths {
    /// The number of steps of the least length above 0 that reaches past the first station or the last.
    pub(crate) fn past(&self) -> i64
        ensures some { pos 1 ≤ℤ result }
        ensures most { result ≤ℤ pos 524288 }
        ensures past { IsPastEnd self.now.first self.now.last self.now.centre (result *ℤ twice self.now.half_step) }
        ensures before { (steps : ℤ) → pos 1 ≤ℤ steps → steps <ℤ result → IsWithinEnds self.now.first self.now.last self.now.centre (steps *ℤ self.now.half_step) }
    {
        (floor_div(self.room(), self.half_step) + 1).max(1)
    }

    /// The distance from the centre to the nearer end, below 0 where the centre is outside of the ship.
    fn room(&self) -> i64
        ensures aft { result ≤ℤ (self.now.centre -ℤ self.now.first) }
        ensures fore { result ≤ℤ (self.now.last -ℤ self.now.centre) }
        ensures met { (result ≡ self.now.centre -ℤ self.now.first) ⊎ (result ≡ self.now.last -ℤ self.now.centre) }
        ensures size { unsigned_abs result ≤ 524287 }
    {
        (self.centre - self.first).min(self.last - self.centre)
    }

    /// The slab of a number of steps.
    pub(crate) fn slab(&self, steps: i64) -> Slab
        requires some { pos 1 ≤ℤ steps }
        requires most { steps ≤ℤ pos 524288 }
        requires within { IsWithinEnds self.now.first self.now.last self.now.centre (steps *ℤ self.now.half_step) }
        ensures { IsSlabOf self.now.first self.now.last self.now.centre self.now.permeability (steps *ℤ twice self.now.half_step) result }
    {
        let half = product(steps, self.half_step);
        slab_about(self.centre, half, self.permeability)
    }
}

/// The slab from `half` before a centre to `half` behind it.
fn slab_about(centre: i64, half: i64, permeability: u32) -> Slab
    requires slab { IsSlab (centre -ℤ half) (centre +ℤ half) permeability }
    ensures aft { result.aft ≡ centre -ℤ half }
    ensures fore { result.fore ≡ centre +ℤ half }
    ensures share { result.permeability ≡ permeability }
{
    match Slab::new(centre - half, centre + half, permeability) {
        Some(slab) => slab,
        None => unreachable!(),
    }
}
