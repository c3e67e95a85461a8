// The parts of a job, from entries that have no fault.
ghost use Rattle.std.specs.Prelude.{◌≡◌, ◌≤◌, ◌<◌, ◌^◌, true, None, Some, length, map, is_some, IfOk, IfErr};
ghost use Rattle.std.specs.List.{AllByRecursion, list_all};
ghost use Rattle.job_reader.specs.Checks as spec;
ghost use Rattle.hull_model.specs.Slabs.{are_apart, ends_of};

use crate::entry::Named;
use crate::{Compartments, Damage, JobFault, Key, Name, Sequence};
use hull_model::Slab;
use std::alloc::{AllocError, Global};

/// What the entries say, without their names.
pub(crate) fn values_of<T: Copy>(alloc: Global, entries: &[Named<T>]) -> Result<Vec<T>, AllocError>
    ensures { IfOk result (λ v. v.items ≡ map (λ e. e.value) entries.now) }
{
    let mut values = Vec::new(alloc);
    for entry in entries {
        values.push(entry.value)?;
    }
    Ok(values)
}

/// The compartments by name.
pub(crate) fn by_name(alloc: Global, entries: &[Named<Slab>]) -> Result<Compartments, JobFault>
    requires { spec.twice_fault Key.CompartmentName (map (λ e. e.name) entries.now) ≡ None }
    ensures same { IfOk result (λ compartments. compartments ≡ map (λ e. (e.name, e.value)) entries.now) }
    ensures names { IfOk result (λ compartments. map (λ c. c.0) compartments ≡ map (λ e. e.name) entries.now) }
    ensures ends { IfOk result (λ compartments. map (λ c. ends_of c.1) compartments ≡ map (λ e. ends_of e.value) entries.now) }
    ensures err { IfErr result (λ e. e ≡ JobFault.Memory) }
{
    let mut compartments = Compartments::new(alloc);
    for entry in entries {
        compartments.add(entry.name.copied(), entry.value)?;
    }
    Ok(compartments)
}

/// The damage cases, by the slabs that flood.
pub(crate) fn damages_of(
    alloc: Global,
    compartments: &Compartments,
    cases: &[Named<Sequence<Name>>],
) -> Result<Vec<Damage>, AllocError>
    requires flooded { spec.cases_fault (map (λ c. c.0) compartments.now) (map (λ c. c.value) cases.now) ≡ None }
    requires few { AllByRecursion (λ c. length c.value ≤ 64) cases.now }
    requires apart { spec.overlap_fault (map (λ c. ends_of c.1) compartments.now) ≡ None }
    ensures { IfOk result (λ v. map (λ c. map (spec.slab_named compartments.now) c.value) cases.now ≡ map (λ d. map Some d.slabs) v.items) }
{
    let mut damages = Vec::new(alloc);
    for case in cases {
        let slabs = slabs_of(alloc, compartments, case.value.as_slice())?;
        match Damage::of(slabs) {
            Some(damage) => damages.push(damage)?,
            None => unreachable!(),
        }
    }
    Ok(damages)
}

fn slabs_of(
    alloc: Global,
    compartments: &Compartments,
    names: &[Name],
) -> Result<Vec<Slab>, AllocError>
    requires { list_all (λ n. is_some (spec.slab_named compartments.now n)) names.now ≡ true }
    ensures { IfOk result (λ v. map (spec.slab_named compartments.now) names.now ≡ map Some v.items) }
{
    let mut slabs = Vec::new(alloc);
    for name in names {
        match compartments.get(name) {
            Some(slab) => slabs.push(slab)?,
            None => unreachable!(),
        }
    }
    Ok(slabs)
}
