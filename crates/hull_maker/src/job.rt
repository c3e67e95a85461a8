// The made job.
ghost use Rattle.std.specs.Prelude.{◌≡◌, [], ◌∷◌, codes, IfOk};
ghost use Rattle.hull_maker.specs.MadeJob as spec;
ghost use Rattle.hull_maker.specs.MadeJob.{IsMadeJob, parts_of};

use exact_fraction::Memory;
use hull_model::{Slab, Water};
use job_reader::{Compartments, Damage, Item, Job, Name, Sequence};
use std::alloc::Global;

/// The job for a made hull: one item, "ship", of 4000 t, one draft, one compartment, "middle", and one damage case that
/// floods it.
pub fn made_job(alloc: Global) -> Result<Job, Memory>
    ensures { IfOk result IsMadeJob }
{
    let slab = middle();
    Ok(Job {
        version: 1,
        water: Water {
            density: 1025,
            length_bp: 100_000,
        },
        margin: 76,
        drafts: Sequence::new(vec![in alloc; 4500]?),
        masses: Sequence::new(Vec::new(alloc)),
        items: Sequence::new(vec![in alloc; ship()]?),
        openings: Sequence::new(Vec::new(alloc)),
        compartments: made_compartments(alloc, slab)?,
        damages: Sequence::new(vec![in alloc; made_damage(alloc, slab)?]?),
        floodable: None,
    })
}

fn ship() -> Item
    ensures { result ≡ spec.ship }
{
    Item {
        mass: 4_000_000,
        x: 50_000,
        y: 0,
        z: 5000,
        free_surface: 0,
    }
}

// The part of the ship from 40 m to 60 m.
fn middle() -> Slab
    ensures { parts_of result ≡ spec.middle }
{
    match Slab::new(40_000, 60_000, 850) {
        Some(slab) => slab,
        None => unreachable!(),
    }
}

fn made_compartments(alloc: Global, slab: Slab) -> Result<Compartments, Memory>
    ensures { IfOk result (λ compartments. compartments ≡ (codes "middle", slab) ∷ []) }
{
    let Some(name) = Name::of("middle") else {
        unreachable!();
    };
    let mut compartments = Compartments::new(alloc);
    compartments.add(name, slab)?;
    Ok(compartments)
}

fn made_damage(alloc: Global, slab: Slab) -> Result<Damage, Memory>
    ensures { IfOk result (λ damage. damage.slabs ≡ slab ∷ []) }
{
    match Damage::of(vec![in alloc; slab]?) {
        Some(damage) => Ok(damage),
        None => unreachable!(),
    }
}
