// The entries of a job file: items, openings, compartments and damage cases, each a table with a name.
ghost use Rattle.std.specs.Prelude.{◌≡◌, ◌⊎◌, ◌≤◌, ◌<◌, ◌^◌, ℕ, List, Option, true, None, Some, length, map, OnOk, IfOk, IfErr, pos};
ghost use Rattle.std.specs.List.{list_all};
ghost use Rattle.toml.specs.Data.{Members};
ghost use Rattle.toml.specs.View.{table_view, view};
ghost use Rattle.job_reader.specs.Entries as spec;
ghost use Rattle.job_reader.specs.Faults.{first_in};
ghost use Rattle.job_reader.specs.Limits.{is_from, is_whole_near};
ghost use Rattle.job_reader.specs.Rules as rules;
ghost use Rattle.job_reader.specs.Values as values;

use crate::array::{Kind, lengths_of};
use crate::rule::{self, Tables};
use crate::value::{check_keys, value_at};
use crate::{FloodPlan, Item, JobFault, Key, Name, Sequence};
use hull_model::{Opening, Slab};
use std::alloc::Global;
use toml::{Table, Value};

/// What an entry says, by its name.
#[derive(Debug, Drop)]
pub(crate) struct Named<T> {
    pub(crate) name: Name,
    pub(crate) value: T,
}

/// What a table of an array of tables is read as.
pub(crate) trait Entry: Drop {
    ghost use Rattle.job_reader.specs.declared.fault.JobFault.{JobFault};

    ghost fault: { ℕ → ℕ → Members → Option JobFault };

    ghost says: { ℕ → Members → Self → Type 0 };

    /// Reads the table with this number in its array, in a file of this version.
    fn read(alloc: Global, version: u32, table: &Table, entry: u32) -> Result<Self, JobFault>
        ensures ok { OnOk result (fault version entry (table_view table.now) ≡ None) }
        ensures says { IfOk result (says version (table_view table.now)) }
        ensures err { IfErr result (λ e. (e ≡ JobFault.Memory) ⊎ (fault version entry (table_view table.now) ≡ Some e)) };
}

impl Entry for Named<Item> {
    ghost fault = { spec.item_fault };

    ghost says = { spec.SaysItemEntry };

    fn read(
        alloc: Global,
        version: u32,
        table: &Table,
        entry: u32,
    ) -> Result<Named<Item>, JobFault> {
        item_of(version, table, entry)
    }
}

impl Entry for Named<Opening> {
    ghost fault = { λ version. spec.opening_fault };

    ghost says = { λ version. spec.SaysOpeningEntry };

    fn read(
        alloc: Global,
        version: u32,
        table: &Table,
        entry: u32,
    ) -> Result<Named<Opening>, JobFault> {
        opening_of(table, entry)
    }
}

impl Entry for Named<Slab> {
    ghost fault = { λ version. spec.compartment_fault };

    ghost says = { λ version. spec.SaysCompartmentEntry };

    fn read(
        alloc: Global,
        version: u32,
        table: &Table,
        entry: u32,
    ) -> Result<Named<Slab>, JobFault> {
        compartment_of(table, entry)
    }
}

impl Entry for Named<Sequence<Name>> {
    ghost fault = { λ version. spec.damage_fault };

    ghost says = { λ version. spec.SaysDamageEntry };

    fn read(
        alloc: Global,
        version: u32,
        table: &Table,
        entry: u32,
    ) -> Result<Named<Sequence<Name>>, JobFault> {
        damage_of(alloc, table, entry)
    }
}

#[tactic(auto, unfolding(crate::specs::Entries::item_fault))]
fn item_of(version: u32, table: &Table, entry: u32) -> Result<Named<Item>, JobFault>
    ensures ok { OnOk result (spec.item_fault version entry (table_view table.now) ≡ None) }
    ensures says { IfOk result (spec.SaysItemEntry version (table_view table.now)) }
    ensures err { IfErr result (λ e. spec.item_fault version entry (table_view table.now) ≡ Some e) }
{
    check_keys(table, rule::item_keys(version), Key::Item, entry)?;
    let name = Key::ItemName.read_name(table, entry)?;
    let mass = rule::ITEM_MASS.read(table, entry)?;
    let x = rule::ITEM_X.read(table, entry)?;
    let y = item_y_of(version, table, entry)?;
    let z = rule::ITEM_Z.read(table, entry)?;
    let free_surface = rule::ITEM_FREE.read(table, entry)?;
    let value = Item {
        mass,
        x: x as i64,
        y,
        z: z as i64,
        free_surface,
    };
    Ok(Named { name, value })
}

// The y of an item; where its version has none the item stands on the centreplane.
fn item_y_of(version: u32, table: &Table, entry: u32) -> Result<i64, JobFault>
    ensures ok { OnOk result (spec.item_y_fault version entry (table_view table.now) ≡ None) }
    ensures value { IfOk result (λ y. y ≡ spec.item_y_of version (table_view table.now)) }
    ensures range { IfOk result (λ y. is_whole_near 65535 y ≡ true) }
    ensures err { IfErr result (λ e. spec.item_y_fault version entry (table_view table.now) ≡ Some e) }
{
    if rule::has_y(version) {
        rule::ITEM_Y.read(table, entry)
    } else {
        Ok(0)
    }
}

#[tactic(auto, unfolding(crate::specs::Entries::opening_fault))]
fn opening_of(table: &Table, entry: u32) -> Result<Named<Opening>, JobFault>
    ensures ok { OnOk result (spec.opening_fault entry (table_view table.now) ≡ None) }
    ensures says { IfOk result (spec.SaysOpeningEntry (table_view table.now)) }
    ensures err { IfErr result (λ e. spec.opening_fault entry (table_view table.now) ≡ Some e) }
{
    check_keys(table, &rule::OPENING_KEYS, Key::Opening, entry)?;
    let name = Key::OpeningName.read_name(table, entry)?;
    let y = rule::OPENING_Y.read(table, entry)?;
    let z = rule::OPENING_Z.read(table, entry)?;
    let value = Opening {
        y: y as i64,
        z: z as i64,
    };
    Ok(Named { name, value })
}

#[tactic(auto, unfolding(crate::specs::Entries::compartment_fault))]
fn compartment_of(table: &Table, entry: u32) -> Result<Named<Slab>, JobFault>
    ensures ok { OnOk result (spec.compartment_fault entry (table_view table.now) ≡ None) }
    ensures says { IfOk result (spec.SaysCompartmentEntry (table_view table.now)) }
    ensures err { IfErr result (λ e. spec.compartment_fault entry (table_view table.now) ≡ Some e) }
{
    check_keys(table, &rule::COMPARTMENT_KEYS, Key::Compartment, entry)?;
    let name = Key::CompartmentName.read_name(table, entry)?;
    let aft = rule::COMPARTMENT_FROM.read(table, entry)?;
    let fore = rule::compartment_to(aft).read(table, entry)?;
    let permeability = rule::COMPARTMENT_PERMEABILITY.read(table, entry)?;
    let value = Slab {
        aft: aft as i64,
        fore: fore as i64,
        permeability: permeability as u32,
    };
    Ok(Named { name, value })
}

#[tactic(auto, unfolding(crate::specs::Entries::damage_fault))]
fn damage_of(alloc: Global, table: &Table, entry: u32) -> Result<Named<Sequence<Name>>, JobFault>
    ensures ok { OnOk result (spec.damage_fault entry (table_view table.now) ≡ None) }
    ensures says { IfOk result (spec.SaysDamageEntry (table_view table.now)) }
    ensures err { IfErr result (λ e. (e ≡ JobFault.Memory) ⊎ (spec.damage_fault entry (table_view table.now) ≡ Some e)) }
{
    check_keys(table, &rule::DAMAGE_KEYS, Key::Damage, entry)?;
    let name = Key::DamageName.read_name(table, entry)?;
    let flooded = Key::DamageFlooded.read_names(alloc, table, entry, rule::MOST_FLOODED)?;
    Ok(Named {
        name,
        value: Sequence::new(flooded),
    })
}

/// The entries of an array of tables; none where the key isn't there.
pub(crate) fn read_entries<E: Entry>(
    alloc: Global,
    version: u32,
    document: &Table,
    rule: &Tables,
) -> Result<Vec<E>, JobFault>
    requires { rule.now.count < 2 ^ 32 }
    ensures ok { OnOk result (spec.tables_fault (E.fault version) rule.now (table_view document.now) ≡ None) }
    ensures says { IfOk result (λ v. spec.SayAll (E.says version) (spec.tables_at rule.now (table_view document.now)) v.items) }
    ensures few { IfOk result (λ v. length v.items ≤ rule.now.count) }
    ensures err { IfErr result (λ e. (e ≡ JobFault.Memory) ⊎ (spec.tables_fault (E.fault version) rule.now (table_view document.now) ≡ Some e)) }
{
    let Some(value) = value_at(document, rule.key) else {
        return Ok(Vec::new(alloc));
    };
    let tables = Kind::Table.elements(rule.key, 0, rule.count, value)?;
    entries_in(alloc, version, tables)
}

fn entries_in<E: Entry>(alloc: Global, version: u32, tables: &[Value]) -> Result<Vec<E>, JobFault>
    requires tables { list_all (λ v. values.is_of Kind.Table (view v)) tables.now ≡ true }
    requires few { length tables.now < 2 ^ 32 }
    ensures ok { OnOk result (first_in (λ n before t. E.fault version n t) (map (λ v. spec.table_in (view v)) tables.now) ≡ None) }
    ensures says { IfOk result (λ v. spec.SayAll (E.says version) (map (λ v. spec.table_in (view v)) tables.now) v.items) }
    ensures few { IfOk result (λ v. length v.items ≡ length tables.now) }
    ensures err { IfErr result (λ e. (e ≡ JobFault.Memory) ⊎ (first_in (λ n before t. E.fault version n t) (map (λ v. spec.table_in (view v)) tables.now) ≡ Some e)) }
{
    let mut entries = Vec::new(alloc);
    let mut number: u32 = 0;
    for table in tables {
        number += 1;
        entries.push(E::read(alloc, version, table_in(table), number)?)?;
    }
    Ok(entries)
}

// The table of a value that is one.
#[tactic(auto, unfolding(crate::specs::Entries::table_in))]
fn table_in(value: &Value) -> &Table
    requires { values.is_of Kind.Table (view value.now) ≡ true }
    ensures { table_view result.now ≡ spec.table_in (view value.now) }
{
    match value.as_table() {
        Some(table) => table,
        None => unreachable!(),
    }
}

/// The plan of floodable lengths.
#[tactic(auto, unfolding(crate::specs::Entries::plan_fault))]
pub(crate) fn plan_of(alloc: Global, table: &Table) -> Result<FloodPlan, JobFault>
    ensures ok { OnOk result (spec.plan_fault (table_view table.now) ≡ None) }
    ensures says { IfOk result (spec.SaysPlan (table_view table.now)) }
    ensures err { IfErr result (λ e. (e ≡ JobFault.Memory) ⊎ (spec.plan_fault (table_view table.now) ≡ Some e)) }
{
    check_keys(table, &rule::FLOODABLE_KEYS, Key::Floodable, 0)?;
    let centres = rule::FLOODABLE_CENTRES.read(alloc, table, 0)?;
    let step = rule::FLOODABLE_STEP.read(table, 0)?;
    if step % 2 != 0 {
        return Err(JobFault::Range {
            key: Key::FloodableStep,
            entry: 0,
        });
    }
    let permeability = rule::FLOODABLE_PERMEABILITY.read(table, 0)?;
    Ok(FloodPlan {
        centres: Sequence::new(lengths_of(alloc, &centres)?),
        step: step as i64,
        permeability: permeability as u32,
    })
}
