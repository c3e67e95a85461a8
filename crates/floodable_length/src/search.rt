// The search for a floodable length.
ghost use Rattle.std.specs.Prelude.{◌≡◌, ◌≤◌, ◌%◌, ℕ, ℤ, pos, ◌*ℤ◌, ◌+ℤ◌, ◌-ℤ◌, ◌≤ℤ◌, ◌<ℤ◌, nat_abs, IfOk};
ghost use Rattle.hull_model.specs.Body.{IsWithin};
ghost use Rattle.hull_polyhedron.specs.FacesOf.{AreFacesOf};
ghost use Rattle.floodable_length.specs.Gap.{IsAlong, IsFound, IsGap};
ghost use Rattle.floodable_length.specs.Lengths.{twice};
ghost use Rattle.floodable_length.specs.LoadedShip.{LoadedShip, ship_of, IsShip};
ghost use Rattle.floodable_length.specs.Reach.{IsSafe, IsReach, HasSmallLengths};

use crate::gap::Gap;
use crate::guess::{Guess, Tried};
use crate::lengths::Lengths;
use crate::products::product;
use crate::ship::Ship;
use crate::weighing::Weighed;
use crate::{Reach, Reason};
use damage_box::DraftBox;
use exact_fraction::Memory;
use hull_model::{Hull, Water};
use hull_polyhedron::Faces;
use loading_sheet::Loading;
use std::alloc::Global;

/// The floodable length at a centre, found by guessed lengths between length 0 and the first length that reaches past an end.
///
/// `margin` is in mm below the top points of the stations, from 76 to 10000; `centre` in mm, from 0 to 524287; `step` in mm,
/// even and from 2 to 100000; `permeability` in thousandths, up to 1000. The faces are the hull's.
pub fn floodable(
    alloc: Global,
    hull: &Hull,
    faces: &Faces,
    loading: &Loading,
    water: &Water,
    margin: u32,
    centre: i64,
    step: i64,
    permeability: u32,
) -> Result<Reach, Memory>
    requires faces { AreFacesOf hull.now faces.now }
    requires margin { (76 ≤ margin) × (margin ≤ 10000) }
    requires centre { IsWithin (pos 524287) centre }
    requires step { (pos 2 ≤ℤ step) × (step ≤ℤ pos 100000) }
    requires even { nat_abs step % 2 ≡ 0 }
    requires permeability { permeability ≤ 1000 }
    ensures reach { IfOk result (IsReach (record { stations = hull.now; faces = faces.now; loading = loading.now; water = water.now; margin = margin }) centre permeability step) }
    ensures lengths { IfOk result HasSmallLengths }
{
    let ship = Ship {
        stations: hull.stations(),
        faces,
        loading,
        water,
        margin,
    };
    let lengths = Lengths {
        first: faces.first_x(),
        last: faces.last_x(),
        centre,
        half_step: half_of(step),
        permeability,
    };
    match ship.weigh(alloc, &[])? {
        Weighed::Safe(intact) => longest(alloc, &ship, &lengths, intact),
        Weighed::Unsafe(reason) => Ok(Reach {
            safe: None,
            next: (0, reason),
        }),
    }
}

/// The longest length that is found to be safe, where length 0 is safe with the box `intact`.
fn longest(alloc: Global, ship: &Ship, lengths: &Lengths, intact: DraftBox) -> Result<Reach, Memory>
    requires ship { IsShip (ship_of ship.now) }
    requires ends { IsAlong (ship_of ship.now) lengths.now }
    requires intact { IsSafe (ship_of ship.now) lengths.now.centre lengths.now.permeability (pos 0) intact }
    ensures { IfOk result (IsReach (ship_of ship.now) lengths.now.centre lengths.now.permeability (twice lengths.now.half_step)) }
{
    let mut gap = Gap {
        safe: 0,
        at: intact,
        next: lengths.past(),
        reason: Reason::EndOfShip,
    };
    let mut guess = Guess::new(&gap, ship.clearance(&intact));
    while gap.is_wide() {
        gap = looked_into(alloc, ship, lengths, gap, &mut guess)?;
    }
    Ok(reach_of(&gap, lengths))
}

/// The gap on one side of the length that is guessed.
fn looked_into(
    alloc: Global,
    ship: &Ship,
    lengths: &Lengths,
    gap: Gap,
    guess: &mut Guess,
) -> Result<Gap, Memory>
    requires ship { IsShip (ship_of ship.now) }
    requires ends { IsAlong (ship_of ship.now) lengths.now }
    requires gap { IsGap (ship_of ship.now) lengths.now.centre lengths.now.permeability lengths.now.half_step gap }
    requires wide { pos 1 <ℤ (gap.next -ℤ gap.safe) }
    ensures gap { IfOk result (IsGap (ship_of ship.now) lengths.now.centre lengths.now.permeability lengths.now.half_step) }
    ensures narrower { IfOk result (λ g. (g.next -ℤ g.safe) <ℤ (gap.next -ℤ gap.safe)) }
{
    let steps = between(gap.safe, gap.next, guess.length(&gap));
    let slab = lengths.slab(steps);
    let found = ship.weigh(alloc, &[slab])?;
    let left = narrowed(&gap, steps, found);
    let tried = match ship.clearance_found(&found) {
        Some(clearance) => Some(Tried {
            length: steps,
            clearance,
        }),
        None => None,
    };
    guess.learn(tried, &gap, &left);
    Ok(left)
}

/// The gap below or above a number of steps, by what was found there.
fn narrowed(gap: &Gap, steps: i64, found: Weighed) -> Gap
    requires above { gap.now.safe <ℤ steps }
    requires below { steps <ℤ gap.now.next }
    ensures gap { (ship : LoadedShip) (centre half_step : ℤ) (permeability : ℕ) → IsGap ship centre permeability half_step gap.now → IsFound ship centre permeability (steps *ℤ twice half_step) found → IsGap ship centre permeability half_step result }
    ensures narrower { (result.next -ℤ result.safe) <ℤ (gap.now.next -ℤ gap.now.safe) }
{
    match found {
        Weighed::Safe(at) => gap.above(steps, at),
        Weighed::Unsafe(reason) => gap.below(steps, reason),
    }
}

/// The number of steps nearest to `wish` between two others.
fn between(safe: i64, next: i64, wish: i64) -> i64
    requires safe { pos 0 ≤ℤ safe }
    requires next { next ≤ℤ pos 524288 }
    requires wide { pos 1 <ℤ (next -ℤ safe) }
    ensures above { safe <ℤ result }
    ensures below { result <ℤ next }
{
    if wish <= safe {
        safe + 1
    } else if wish >= next {
        next - 1
    } else {
        wish
    }
}

/// What a gap of one step says.
fn reach_of(gap: &Gap, lengths: &Lengths) -> Reach
    requires from { pos 0 ≤ℤ gap.now.safe }
    requires most { gap.now.next ≤ℤ pos 524288 }
    requires narrow { gap.now.next ≡ gap.now.safe +ℤ pos 1 }
    ensures { (ship : LoadedShip) → IsGap ship lengths.now.centre lengths.now.permeability lengths.now.half_step gap.now → IsReach ship lengths.now.centre lengths.now.permeability (twice lengths.now.half_step) result }
{
    let step = 2 * lengths.half_step;
    Reach {
        safe: Some((product(gap.safe, step), gap.at)),
        next: (product(gap.next, step), gap.reason),
    }
}

/// Half of an even number of mm.
fn half_of(step: i64) -> i64
    requires step { (pos 2 ≤ℤ step) × (step ≤ℤ pos 100000) }
    requires even { nat_abs step % 2 ≡ 0 }
    ensures half { twice result ≡ step }
    ensures some { pos 1 ≤ℤ result }
    ensures most { result ≤ℤ pos 50000 }
{
    step / 2
}
