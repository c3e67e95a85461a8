// The job of a file.
ghost use Rattle.std.specs.Prelude.{◌≡◌, ◌⊎◌, ◌≤◌, ◌<◌, ◌^◌, None, Some, length, map, true, OnOk, IfOk, IfErr, IsErrOf};
ghost use Rattle.toml.specs.View.{table_view};
ghost use Rattle.job_reader.specs.Job as spec;
ghost use Rattle.hull_model.specs.Slabs.{ends_of};
ghost use Rattle.job_reader.specs.Parts.{SaysParts, parts_fault};
ghost use Rattle.job_reader.specs.Limits.{is_version};
ghost use Rattle.job_reader.specs.Values as values;

use crate::array::drafts_of;
use crate::check::{check_apart, check_cases, check_names};
use crate::entry::{Named, plan_of, read_entries};
use crate::parts::{by_name, damages_of, values_of};
use crate::value::{check_keys, number_within, value_at};
use crate::{Compartments, FloodPlan, Item, Job, JobFault, Key, Name, Sequence, rule};
use hull_model::{Opening, Slab, Water};
use std::alloc::Global;
use toml::Table;

/// The job of a job file, or the first fault that the file has.
///
/// `bytes` is a TOML document of version 1, whose items stand on the centreplane, or 2; all its numbers are integers.
/// README has the table of keys with their units and ranges; faults are looked for in the order of that table. Takes
/// memory for the document and the job.
pub fn read_job(alloc: Global, bytes: &[u8]) -> Result<Job, JobFault>
    requires { length bytes.now < 2 ^ 32 }
    ensures job { IfOk result (spec.IsJobOfFile bytes.now) }
    ensures fault { IfErr result (λ e. (e ≡ JobFault.Memory) ⊎ spec.IsFaultOf bytes.now e) }
{
    let document = document_of(alloc, bytes)?;
    job_of(alloc, &document)
}

fn document_of(alloc: Global, bytes: &[u8]) -> Result<Table, JobFault>
    ensures ok { IfOk result (λ document. spec.IsDocument bytes.now (table_view document)) }
    ensures err { IfErr result (λ e. (e ≡ JobFault.Memory) ⊎ ((e ≡ JobFault.Text) × spec.IsNoDocument bytes.now)) }
{
    match toml::table_from_slice(alloc, bytes) {
        Ok(document) => Ok(document),
        Err(fault) if fault.is_memory() => Err(JobFault::Memory),
        Err(_) => Err(JobFault::Text),
    }
}

fn read_version(document: &Table) -> Result<u32, JobFault>
    ensures ok { OnOk result (spec.version_fault (table_view document.now) ≡ None) }
    ensures value { IfOk result (λ version. version ≡ spec.version_of (table_view document.now)) }
    ensures range { IfOk result (λ version. is_version version ≡ true) }
    ensures err { IfErr result (λ e. spec.version_fault (table_view document.now) ≡ Some e) }
{
    let key = Key::Version;
    let entry = 0;
    let Some(value) = value_at(document, key) else {
        return Err(JobFault::Missing { key, entry });
    };
    let Some(version) = value.as_integer() else {
        return Err(JobFault::Kind { key, entry });
    };
    match number_within(version, rule::VERSION.least, rule::VERSION.most) {
        Some(version) => Ok(version as u32),
        None => Err(JobFault::Version),
    }
}

fn read_plan(alloc: Global, document: &Table) -> Result<Option<FloodPlan>, JobFault>
    ensures ok { OnOk result (spec.floodable_fault (table_view document.now) ≡ None) }
    ensures plan { IfOk result (spec.PlanIs (values.at Key.Floodable (table_view document.now))) }
    ensures err { IfErr result (λ e. (e ≡ JobFault.Memory) ⊎ (spec.floodable_fault (table_view document.now) ≡ Some e)) }
{
    let key = Key::Floodable;
    let Some(value) = value_at(document, key) else {
        return Ok(None);
    };
    let Some(plan) = value.as_table() else {
        return Err(JobFault::Kind { key, entry: 0 });
    };
    Ok(Some(plan_of(alloc, plan)?))
}

// What the keys of a document say, each by itself.
#[derive(Drop)]
pub(crate) struct Parts {
    version: u32,
    water: Water,
    margin: u32,
    drafts: Vec<u32>,
    masses: Vec<u64>,
    items: Vec<Named<Item>>,
    openings: Vec<Named<Opening>>,
    compartments: Vec<Named<Slab>>,
    damages: Vec<Named<Sequence<Name>>>,
    floodable: Option<FloodPlan>,
}

#[tactic(auto, unfolding(crate::specs::Job::keys_fault))]
fn parts_of(alloc: Global, document: &Table) -> Result<Parts, JobFault>
    ensures ok { OnOk result (spec.keys_fault (table_view document.now) ≡ None) }
    ensures says { IfOk result (SaysParts (table_view document.now)) }
    ensures err { IfErr result (λ e. (e ≡ JobFault.Memory) ⊎ (spec.keys_fault (table_view document.now) ≡ Some e)) }
{
    check_keys(document, &rule::TOP_KEYS, Key::Top, 0)?;
    let version = read_version(document)?;
    let density = rule::DENSITY.read(document, 0)?;
    let length_bp = rule::LENGTH_BP.read(document, 0)?;
    let margin = rule::MARGIN.read(document, 0)?;
    let drafts = rule::DRAFTS.read(alloc, document, 0)?;
    let masses = rule::DISPLACEMENTS.read(alloc, document, 0)?;
    let items = read_entries(alloc, version, document, &rule::ITEMS)?;
    let openings = read_entries(alloc, version, document, &rule::OPENINGS)?;
    let compartments = read_entries(alloc, version, document, &rule::COMPARTMENTS)?;
    let damages = read_entries(alloc, version, document, &rule::DAMAGES)?;
    let floodable = read_plan(alloc, document)?;
    Ok(Parts {
        version,
        water: Water {
            density: density as u32,
            length_bp: length_bp as u32,
        },
        margin: margin as u32,
        drafts: drafts_of(alloc, &drafts)?,
        masses,
        items,
        openings,
        compartments,
        damages,
        floodable,
    })
}

// The compartments by name, where the entries are in order to each other.
#[tactic(auto, unfolding(crate::specs::Parts::parts_fault))]
fn compartments_of(alloc: Global, parts: &Parts) -> Result<Compartments, JobFault>
    requires items { length parts.now.items.items ≤ 256 }
    requires openings { length parts.now.openings.items ≤ 64 }
    requires compartments { length parts.now.compartments.items ≤ 64 }
    requires damages { length parts.now.damages.items ≤ 32 }
    ensures ok { OnOk result (parts_fault parts.now ≡ None) }
    ensures same { IfOk result (λ compartments. compartments ≡ map (λ e. (e.name, e.value)) parts.now.compartments.items) }
    ensures names { IfOk result (λ compartments. map (λ c. c.0) compartments ≡ map (λ e. e.name) parts.now.compartments.items) }
    ensures ends { IfOk result (λ compartments. map (λ c. ends_of c.1) compartments ≡ map (λ e. ends_of e.value) parts.now.compartments.items) }
    ensures err { IfErr result (λ e. (e ≡ JobFault.Memory) ⊎ (parts_fault parts.now ≡ Some e)) }
{
    check_names(&parts.items, Key::ItemName)?;
    check_names(&parts.openings, Key::OpeningName)?;
    check_names(&parts.compartments, Key::CompartmentName)?;
    check_names(&parts.damages, Key::DamageName)?;
    let compartments = by_name(alloc, &parts.compartments)?;
    check_cases(&compartments, &parts.damages)?;
    check_apart(&parts.compartments)?;
    Ok(compartments)
}

#[tactic(auto, unfolding(crate::specs::Job::first_fault))]
fn job_of(alloc: Global, document: &Table) -> Result<Job, JobFault>
    ensures ok { OnOk result (spec.first_fault (table_view document.now) ≡ None) }
    ensures job { IfOk result (spec.IsJobOf (table_view document.now)) }
    ensures err { IfErr result (λ e. (e ≡ JobFault.Memory) ⊎ (spec.first_fault (table_view document.now) ≡ Some e)) }
{
    let parts = parts_of(alloc, document)?;
    let compartments = compartments_of(alloc, &parts)?;
    let damages = damages_of(alloc, &compartments, &parts.damages)?;
    let items = values_of(alloc, &parts.items)?;
    let openings = values_of(alloc, &parts.openings)?;
    Ok(Job {
        version: parts.version,
        water: parts.water,
        margin: parts.margin,
        drafts: Sequence::new(parts.drafts),
        masses: Sequence::new(parts.masses),
        items: Sequence::new(items),
        openings: Sequence::new(openings),
        compartments,
        damages: Sequence::new(damages),
        floodable: parts.floodable,
    })
}
