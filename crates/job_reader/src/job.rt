// What a job has.
ghost use Rattle.std.specs.Prelude.{◌≡◌, ◌≤◌, ◌↔◌, ◌==◌, length, true, [], IsSome, IfSome, OnOk, OnErr, option_map};
ghost use Rattle.std.specs.Cmp.Lexicographic.{pointwise};
ghost use Rattle.indexmap.specs.IndexMap.{insert_entry};
ghost use Rattle.job_reader.specs.Checks.{slab_named};
ghost use Rattle.hull_model.specs.Slabs.{are_apart, is_apart, shares};
ghost use Rattle.job_reader.specs.Limits.{is_item, is_plan, is_job, is_version, has_room};

use crate::{Name, Sequence};
use exact_fraction::Memory;
use hull_model::{Opening, Slab, Water};
use indexmap::IndexMap;
use std::alloc::Global;
use std::marker::Model;

/// A mass in the ship.
///
/// `mass` in kg, from 0 to 2^36; its centre's `x`, `y` and height `z` in mm, `x` from 0 to 524287, `y` from -65535 to
/// 65535, below 0 on the port side, and `z` from 0 to 131071; its free surface moment in kg·m, from 0 to 2^36.
#[derive(Clone, Copy, Debug, PartialEq, Eq)]
pub struct Item {
    pub mass: u64,
    pub x: i64,
    pub y: i64,
    pub z: i64,
    pub free_surface: u64,
    ghost limits: { is_item mass x y z free_surface ≡ true },
}

/// The most slabs that a damage case floods.
const MOST_SLABS: usize = 64;

/// A damage case by the slabs that flood, in the order of their names. They are at most 64, and no two share more than a
/// plane.
#[derive(Debug, Drop)]
pub struct Damage {
    pub slabs: Sequence<Slab>,
    ghost few: { length slabs ≤ 64 },
    ghost apart: { are_apart slabs ≡ true },
}

impl Damage {
    /// The case of these slabs: Some exactly where they are at most 64 and no two share more than a plane. Takes no
    /// memory.
    pub fn of(slabs: Vec<Slab>) -> Option<Damage>
        ensures some { IsSome result ↔ ((length slabs.items ≤ 64) × (are_apart slabs.items ≡ true)) }
        ensures same { IfSome result (λ damage. damage.slabs ≡ slabs.items) }
    {
        if slabs.len() <= MOST_SLABS && are_apart(&slabs) {
            Some(Damage {
                slabs: Sequence::new(slabs),
            })
        } else {
            None
        }
    }
}

/// Which floodable lengths are asked for.
///
/// At most 32 centres in mm, from 0 to 524287; an even step in mm, from 2 to 100000; a permeability in
/// thousandths, up to 1000.
#[derive(Debug, Drop)]
pub struct FloodPlan {
    pub centres: Sequence<i64>,
    pub step: i64,
    pub permeability: u32,
    ghost limits: { is_plan centres step permeability ≡ true },
}

/// Compartments by name, in the order of the file. Contracts see the list of names and slabs.
#[derive(Drop)]
pub struct Compartments {
    slabs: IndexMap<Name, Slab>,
}

impl Model for Compartments {
    ghost use Rattle.std.specs.Prelude.{List, ℕ};
    ghost use Rattle.hull_model.specs.declared.slab.Slab.{Slab};

    ghost Value = { List (List ℕ × Slab) };

    ghost view = { λ compartments. compartments.slabs.entries };
}

impl Compartments {
    /// No compartments.
    pub fn new(alloc: Global) -> Compartments
        ensures { result ≡ [] }
    {
        Compartments {
            slabs: IndexMap::new(alloc),
        }
    }

    /// Adds a compartment at the end; one that has the name already takes the slab.
    pub fn add(&mut self, name: Name, slab: Slab) -> Result<(), Memory>
        ensures ok { OnOk result (self.new ≡ insert_entry (pointwise ◌==◌) self.old name slab) }
        ensures err { OnErr result (self.new ≡ self.old) }
    {
        self.slabs.insert(name, slab)?;
        Ok(())
    }

    /// The slab of the compartment with this name.
    pub fn get(&self, name: &Name) -> Option<Slab>
        ensures { result ≡ slab_named self.now name.now }
    {
        self.slabs.get(name).copied()
    }
}

/// What is asked of a hull: its water, its loading, its openings, its compartments and their flooding.
///
/// `version` is that of the job's file, 1 or 2. `margin` is in mm, from 76 to 10000. At most 64 drafts in mm, from 0 to
/// 131071; at most 16 masses in kg whose cross curves are asked for, from 1 to 2^36; at most 256 items, 64 openings, 64
/// compartments and 32 damage cases.
#[derive(Drop)]
pub struct Job {
    pub version: u32,
    pub water: Water,
    pub margin: u32,
    pub drafts: Sequence<u32>,
    pub masses: Sequence<u64>,
    pub items: Sequence<Item>,
    pub openings: Sequence<Opening>,
    pub compartments: Compartments,
    pub damages: Sequence<Damage>,
    pub floodable: Option<FloodPlan>,
    ghost versions: { is_version version ≡ true },
    ghost limits: { is_job margin drafts masses ≡ true },
    ghost room: { has_room items openings compartments damages ≡ true },
}

fn are_apart(slabs: &[Slab]) -> bool
    ensures { result ≡ are_apart slabs.now }
{
    let mut rest = slabs;
    while let [first, after @ ..] = rest {
        if !is_apart(first, after) {
            return false;
        }
        rest = after;
    }
    true
}

fn is_apart(slab: &Slab, others: &[Slab]) -> bool
    ensures { result ≡ is_apart slab.now others.now }
{
    others.iter().all(|other| !shares(slab, other))
}

/// Whether two slabs share more than a plane.
pub(crate) fn shares(one: &Slab, other: &Slab) -> bool
    ensures { result ≡ shares one.now other.now }
{
    one.aft < other.fore && other.aft < one.fore
}
