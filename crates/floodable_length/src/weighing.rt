// What comes of flooding.
ghost use Rattle.std.specs.Prelude.{◌≡◌, ◌≤◌, true, length, IfOk, List};
ghost use Rattle.hull_model.specs.declared.slab.Slab.{Slab};
ghost use Rattle.hull_model.specs.Slabs.{are_apart};
ghost use Rattle.compartment_loss.specs.declared.flooded_hull.FloodedHull.{FloodedHull};
ghost use Rattle.damage_box.specs.SharpDamageBox.{IsFaultOf};
ghost use Rattle.floodable_length.specs.LoadedShip.{LoadedShip, ship_of, IsShip};
ghost use Rattle.floodable_length.specs.Settled.{IsFlooded, SettlesIn, IsCause, IsWeighed};

use crate::Reason;
use crate::ship::Ship;
use compartment_loss::flood;
use damage_box::{DraftBox, SettleFault, settle};
use exact_fraction::Memory;
use hull_model::Slab;
use std::alloc::Global;

/// Whether what floods is safe, and in which box of levels the ship then floats; or why not.
#[derive(Clone, Copy, Debug)]
pub(crate) enum Weighed {
    Safe(DraftBox),
    Unsafe(Reason),
}

impl Ship<'_> {
    /// Floods slabs and lets the ship settle.
    pub(crate) fn weigh(&self, alloc: Global, slabs: &[Slab]) -> Result<Weighed, Memory>
        requires ship { IsShip (ship_of self.now) }
        requires few { length slabs.now ≤ 64 }
        requires apart { are_apart slabs.now ≡ true }
        ensures { IfOk result (IsWeighed (ship_of self.now) slabs.now) }
    {
        let flooded = flood(alloc, self.faces, slabs)?;
        match settle(&flooded, self.loading, self.water) {
            Ok(at) => Ok(self.judge(at)),
            Err(fault) => Ok(Weighed::Unsafe(reason_of(fault))),
        }
    }

    /// How far the margin line is above the levels that were found, if any were.
    pub(crate) fn clearance_found(&self, found: &Weighed) -> Option<i64>
        requires ship { IsShip (ship_of self.now) }
    {
        match found {
            Weighed::Safe(at)
            | Weighed::Unsafe(Reason::Over { at, .. } | Reason::Touch { at, .. }) => {
                Some(self.clearance(at))
            }
            Weighed::Unsafe(_) => None,
        }
    }

    /// The margin line against a box of levels.
    fn judge(&self, at: DraftBox) -> Weighed
        requires ship { IsShip (ship_of self.now) }
        ensures { (slabs : List Slab) → SettlesIn (ship_of self.now) slabs at → IsWeighed (ship_of self.now) slabs result }
    {
        if let Some(station) = self.first_under(at.a1, at.f1) {
            return Weighed::Unsafe(Reason::Over { station, at });
        }
        match self.first_under(at.a2, at.f2) {
            Some(station) => Weighed::Unsafe(Reason::Touch { station, at }),
            None => Weighed::Safe(at),
        }
    }
}

fn reason_of(fault: SettleFault) -> Reason
    ensures { (ship : LoadedShip) (slabs : List Slab) (flood : FloodedHull) → IsFlooded ship slabs flood → IsFaultOf flood ship.loading ship.water ship.stations fault → IsCause ship slabs result }
{
    match fault {
        SettleFault::Sinks { .. } => Reason::Sinks,
        SettleFault::NoStart { .. } => Reason::NoStart,
    }
}
