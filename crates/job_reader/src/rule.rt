// How each key of a job file is read: one rule for each, the table that the reader is driven by.

ghost use Rattle.std.specs.Prelude.{◌≡◌, ◌≤◌};
ghost use Rattle.job_reader.specs.Keys as keys;
ghost use Rattle.job_reader.specs.Rules as rules;

use crate::Key;

/// The greatest mass in kg, and the greatest free surface moment in kg·m.
const MOST_MASS: u64 = 68719476736;

/// The greatest x, in mm.
const MOST_X: u64 = 524287;

/// The greatest distance of an item and an opening from the centreplane, in mm.
const MOST_BREADTH: u64 = 65535;

/// The greatest height of an item and an opening, and the greatest draft, in mm.
const MOST_HEIGHT: u64 = 131071;

/// The greatest permeability, in thousandths.
const MOST_PERMEABILITY: u64 = 1000;

/// A key that has a whole number, from `least` to `most`. Where it isn't there it stands for `default`.
#[derive(Clone, Copy, Debug)]
pub(crate) struct Whole {
    pub(crate) key: Key,
    pub(crate) least: u64,
    pub(crate) most: u64,
    pub(crate) default: Option<u64>,
}

/// A key that has a whole number of either sign, at most `most` in magnitude. Where it isn't there it stands for 0.
#[derive(Clone, Copy, Debug)]
pub(crate) struct Signed {
    pub(crate) key: Key,
    pub(crate) most: u64,
}

/// A key that has an array of at most `count` whole numbers, each from `least` to `most`.
#[derive(Clone, Copy, Debug)]
pub(crate) struct Wholes {
    pub(crate) key: Key,
    pub(crate) needed: bool,
    pub(crate) count: usize,
    pub(crate) least: u64,
    pub(crate) most: u64,
}

/// A key that has an array of at most `count` tables, and the key of the names in these.
#[derive(Clone, Copy, Debug)]
pub(crate) struct Tables {
    pub(crate) key: Key,
    pub(crate) name: Key,
    pub(crate) count: usize,
}

pub(crate) const VERSION: Whole = Whole {
    key: Key::Version,
    least: 1,
    most: 2,
    default: None,
};

pub(crate) const DENSITY: Whole = Whole {
    key: Key::Density,
    least: 500,
    most: 2000,
    default: None,
};

pub(crate) const LENGTH_BP: Whole = Whole {
    key: Key::LengthBp,
    least: 1,
    most: MOST_X,
    default: None,
};

pub(crate) const MARGIN: Whole = Whole {
    key: Key::Margin,
    least: 76,
    most: 10000,
    default: Some(76),
};

pub(crate) const ITEM_MASS: Whole = Whole {
    key: Key::ItemMass,
    least: 0,
    most: MOST_MASS,
    default: None,
};

pub(crate) const ITEM_X: Whole = Whole {
    key: Key::ItemX,
    least: 0,
    most: MOST_X,
    default: None,
};

pub(crate) const ITEM_Y: Signed = Signed {
    key: Key::ItemY,
    most: MOST_BREADTH,
};

pub(crate) const ITEM_Z: Whole = Whole {
    key: Key::ItemZ,
    least: 0,
    most: MOST_HEIGHT,
    default: None,
};

pub(crate) const ITEM_FREE: Whole = Whole {
    key: Key::ItemFree,
    least: 0,
    most: MOST_MASS,
    default: Some(0),
};

pub(crate) const OPENING_Y: Whole = Whole {
    key: Key::OpeningY,
    least: 0,
    most: MOST_BREADTH,
    default: None,
};

pub(crate) const OPENING_Z: Whole = Whole {
    key: Key::OpeningZ,
    least: 0,
    most: MOST_HEIGHT,
    default: None,
};

pub(crate) const COMPARTMENT_FROM: Whole = Whole {
    key: Key::CompartmentFrom,
    least: 0,
    most: 524286,
    default: None,
};

/// The fore end of a compartment whose aft end is at `aft` mm.
pub(crate) fn compartment_to(aft: u64) -> Whole
    requires { aft ≤ 524286 }
    ensures { result ≡ rules.compartment_to aft }
{
    Whole {
        key: Key::CompartmentTo,
        least: aft + 1,
        most: MOST_X,
        default: None,
    }
}

pub(crate) const COMPARTMENT_PERMEABILITY: Whole = Whole {
    key: Key::CompartmentPermeability,
    least: 0,
    most: MOST_PERMEABILITY,
    default: None,
};

pub(crate) const FLOODABLE_STEP: Whole = Whole {
    key: Key::FloodableStep,
    least: 2,
    most: 100000,
    default: None,
};

pub(crate) const FLOODABLE_PERMEABILITY: Whole = Whole {
    key: Key::FloodablePermeability,
    least: 0,
    most: MOST_PERMEABILITY,
    default: None,
};

pub(crate) const DRAFTS: Wholes = Wholes {
    key: Key::Drafts,
    needed: false,
    count: 64,
    least: 0,
    most: MOST_HEIGHT,
};

pub(crate) const DISPLACEMENTS: Wholes = Wholes {
    key: Key::Displacements,
    needed: false,
    count: 16,
    least: 1,
    most: MOST_MASS,
};

pub(crate) const FLOODABLE_CENTRES: Wholes = Wholes {
    key: Key::FloodableCentres,
    needed: true,
    count: 32,
    least: 0,
    most: MOST_X,
};

pub(crate) const ITEMS: Tables = Tables {
    key: Key::Item,
    name: Key::ItemName,
    count: 256,
};

pub(crate) const OPENINGS: Tables = Tables {
    key: Key::Opening,
    name: Key::OpeningName,
    count: 64,
};

pub(crate) const COMPARTMENTS: Tables = Tables {
    key: Key::Compartment,
    name: Key::CompartmentName,
    count: 64,
};

pub(crate) const DAMAGES: Tables = Tables {
    key: Key::Damage,
    name: Key::DamageName,
    count: 32,
};

/// The most compartments that a damage case floods.
pub(crate) const MOST_FLOODED: usize = 64;

/// The keys of an item in a file of version 1.
const CENTRED_ITEM_KEYS: [Key; 5] = [
    Key::ItemName,
    Key::ItemMass,
    Key::ItemX,
    Key::ItemZ,
    Key::ItemFree,
];

/// The keys of an item in a file of version 2.
const ITEM_KEYS: [Key; 6] = [
    Key::ItemName,
    Key::ItemMass,
    Key::ItemX,
    Key::ItemY,
    Key::ItemZ,
    Key::ItemFree,
];

/// Whether items of a file of this version have a y.
pub(crate) fn has_y(version: u32) -> bool
    ensures { result ≡ keys.has_y version }
{
    version == 2
}

/// The keys of an item in a file of this version.
pub(crate) fn item_keys(version: u32) -> &'static [Key]
    ensures { result.now ≡ keys.item_keys version }
{
    if has_y(version) {
        &ITEM_KEYS
    } else {
        &CENTRED_ITEM_KEYS
    }
}

pub(crate) const OPENING_KEYS: [Key; 3] = [Key::OpeningName, Key::OpeningY, Key::OpeningZ];

pub(crate) const COMPARTMENT_KEYS: [Key; 4] = [
    Key::CompartmentName,
    Key::CompartmentFrom,
    Key::CompartmentTo,
    Key::CompartmentPermeability,
];

pub(crate) const DAMAGE_KEYS: [Key; 2] = [Key::DamageName, Key::DamageFlooded];

pub(crate) const FLOODABLE_KEYS: [Key; 3] = [
    Key::FloodableCentres,
    Key::FloodableStep,
    Key::FloodablePermeability,
];

pub(crate) const TOP_KEYS: [Key; 11] = [
    Key::Version,
    Key::Density,
    Key::LengthBp,
    Key::Margin,
    Key::Drafts,
    Key::Displacements,
    Key::Item,
    Key::Opening,
    Key::Compartment,
    Key::Damage,
    Key::Floodable,
];
