// What entries must be to each other.
ghost use Rattle.std.specs.Prelude.{◌≡◌, ◌⊎◌, ◌<◌, ◌^◌, ◌==◌, ℕ, [], true, None, Some, length, map, OnOk, IfOk, IfErr};
ghost use Rattle.std.specs.List.{list_any};
ghost use Rattle.std.specs.Str.{bytes_eq};
ghost use Rattle.job_reader.specs.Checks as spec;
ghost use Rattle.hull_model.specs.Slabs.{ends_of};

use crate::entry::Named;
use crate::job::shares;
use crate::{Compartments, JobFault, Key, Name, Sequence};
use hull_model::Slab;
use std::alloc::Global;

/// Refuses the first entry that has the name of an earlier one.
pub(crate) fn check_names<T>(entries: &[Named<T>], key: Key) -> Result<(), JobFault>
    requires { length entries.now < 2 ^ 32 }
    ensures ok { OnOk result (spec.twice_fault key (map (λ e. e.name) entries.now) ≡ None) }
    ensures err { IfErr result (λ e. spec.twice_fault key (map (λ e. e.name) entries.now) ≡ Some e) }
{
    let mut number: usize = 0;
    for entry in entries {
        if is_named(&entries[..number], &entry.name) {
            return Err(JobFault::Twice {
                key,
                entry: number as u32 + 1,
            });
        }
        number += 1;
    }
    Ok(())
}

fn is_named<T>(entries: &[Named<T>], name: &Name) -> bool
    ensures { result ≡ list_any (λ e. bytes_eq name.now e.name) entries.now }
{
    entries
        .iter()
        .any(|entry| name.as_str() == entry.name.as_str())
}

/// Refuses the first compartment that shares more than a plane with an earlier one.
pub(crate) fn check_apart(compartments: &[Named<Slab>]) -> Result<(), JobFault>
    requires { length compartments.now < 2 ^ 32 }
    ensures ok { OnOk result (spec.overlap_fault (map (λ c. ends_of c.value) compartments.now) ≡ None) }
    ensures err { IfErr result (λ e. spec.overlap_fault (map (λ c. ends_of c.value) compartments.now) ≡ Some e) }
{
    let mut number: usize = 0;
    for compartment in compartments {
        if let Some(first) = overlapped(&compartments[..number], &compartment.value) {
            return Err(JobFault::Overlap {
                first,
                second: number as u32 + 1,
            });
        }
        number += 1;
    }
    Ok(())
}

// The number of the first compartment that shares more than a plane with the slab.
fn overlapped(compartments: &[Named<Slab>], slab: &Slab) -> Option<u32>
    requires { length compartments.now < 2 ^ 32 }
    ensures { result ≡ spec.overlapped_from (ends_of slab.now) 1 (map (λ c. ends_of c.value) compartments.now) }
{
    let mut number: u32 = 0;
    for compartment in compartments {
        number += 1;
        if shares(&compartment.value, slab) {
            return Some(number);
        }
    }
    None
}

/// Refuses the first damage case that floods what isn't there, or one compartment twice.
pub(crate) fn check_cases(
    compartments: &Compartments,
    cases: &[Named<Sequence<Name>>],
) -> Result<(), JobFault>
    requires { length cases.now < 2 ^ 32 }
    ensures ok { OnOk result (spec.cases_fault (map (λ c. c.0) compartments.now) (map (λ c. c.value) cases.now) ≡ None) }
    ensures err { IfErr result (λ e. spec.cases_fault (map (λ c. c.0) compartments.now) (map (λ c. c.value) cases.now) ≡ Some e) }
{
    let mut entry: u32 = 0;
    for case in cases {
        entry += 1;
        check_case(compartments, case.value.as_slice(), entry)?;
    }
    Ok(())
}

fn check_case(compartments: &Compartments, names: &[Name], entry: u32) -> Result<(), JobFault>
    ensures ok { OnOk result (spec.flooded_fault (map (λ c. c.0) compartments.now) entry names.now ≡ None) }
    ensures err { IfErr result (λ e. spec.flooded_fault (map (λ c. c.0) compartments.now) entry names.now ≡ Some e) }
{
    let mut number: usize = 0;
    for name in names {
        if compartments.get(name).is_none() {
            return Err(JobFault::NotNamed { entry });
        }
        if is_among(name, &names[..number]) {
            return Err(JobFault::Twice {
                key: Key::DamageFlooded,
                entry,
            });
        }
        number += 1;
    }
    Ok(())
}

fn is_among(name: &Name, names: &[Name]) -> bool
    ensures { result ≡ spec.is_among name.now names.now }
{
    names.iter().any(|other| name.as_str() == other.as_str())
}
