// The keys of a job file.
ghost use Rattle.std.specs.Prelude.{◌≡◌};

/// A key of the job file, or the file as a whole.
///
/// The variants stand in the order of the format: the keys of the file as a whole, and after each array of
/// tables, or table, those that stand in it.
#[derive(Clone, Copy, Debug, PartialEq, Eq)]
pub enum Key {
    Version,
    Density,
    LengthBp,
    Margin,
    Drafts,
    Displacements,
    Item,
    ItemName,
    ItemMass,
    ItemX,
    ItemY,
    ItemZ,
    ItemFree,
    Opening,
    OpeningName,
    OpeningY,
    OpeningZ,
    Compartment,
    CompartmentName,
    CompartmentFrom,
    CompartmentTo,
    CompartmentPermeability,
    Damage,
    DamageName,
    DamageFlooded,
    Floodable,
    FloodableCentres,
    FloodableStep,
    FloodablePermeability,
    Top,
}

impl Key {
    ghost use Rattle.job_reader.specs.Keys.{table_of, word_of};

    /// The table that the key stands in: `Top` for keys of the file as a whole, and for `Top` itself.
    pub fn table(&self) -> Key
        ensures { result ≡ table_of self.now }
    {
        match self {
            Key::ItemName | Key::ItemMass | Key::ItemX | Key::ItemY | Key::ItemZ | Key::ItemFree =>
                Key::Item,
            Key::OpeningName | Key::OpeningY | Key::OpeningZ => Key::Opening,
            Key::CompartmentName
            | Key::CompartmentFrom
            | Key::CompartmentTo
            | Key::CompartmentPermeability => Key::Compartment,
            Key::DamageName | Key::DamageFlooded => Key::Damage,
            Key::FloodableCentres | Key::FloodableStep | Key::FloodablePermeability => {
                Key::Floodable
            }
            _ => Key::Top,
        }
    }

    /// The key as it stands in its table; `top` for the file as a whole.
    pub fn word(&self) -> &'static str
        ensures { result.now ≡ word_of self.now }
    {
        match self {
            Key::Version => "version",
            Key::Density => "density",
            Key::LengthBp => "length_bp",
            Key::Margin => "margin",
            Key::Drafts => "drafts",
            Key::Displacements => "displacements",
            Key::Item => "item",
            Key::Opening => "opening",
            Key::Compartment => "compartment",
            Key::Damage => "damage",
            Key::Floodable => "floodable",
            Key::ItemName | Key::OpeningName | Key::CompartmentName | Key::DamageName => "name",
            Key::ItemMass => "mass",
            Key::ItemX => "x",
            Key::ItemY | Key::OpeningY => "y",
            Key::ItemZ | Key::OpeningZ => "z",
            Key::ItemFree => "free_surface",
            Key::CompartmentFrom => "from",
            Key::CompartmentTo => "to",
            Key::CompartmentPermeability | Key::FloodablePermeability => "permeability",
            Key::DamageFlooded => "flooded",
            Key::FloodableCentres => "centres",
            Key::FloodableStep => "step",
            Key::Top => "top",
        }
    }
}
