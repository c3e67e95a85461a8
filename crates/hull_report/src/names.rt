// What a report says in one word.
ghost use Rattle.std.specs.Prelude.{◌≡◌};
ghost use Rattle.hull_report.specs.Spelling.{command_name, finding_name, side_name};

/// The command that a report answers.
#[derive(Clone, Copy, Debug, PartialEq, Eq)]
pub enum Command {
    Hydro,
    Bonjean,
    Cross,
    Stability,
    Damage,
    Floodable,
    All,
    Section,
    Make,
    Tanks,
    Strength,
    Flooded,
}

impl Command {
    pub(crate) fn name(&self) -> &'static [u8]
        ensures { result.now ≡ command_name self.now }
    {
        match self {
            Command::Hydro => b"hydro",
            Command::Bonjean => b"bonjean",
            Command::Cross => b"cross",
            Command::Stability => b"stability",
            Command::Damage => b"damage",
            Command::Floodable => b"floodable",
            Command::All => b"all",
            Command::Section => b"section",
            Command::Make => b"make",
            Command::Tanks => b"tanks",
            Command::Strength => b"strength",
            Command::Flooded => b"flooded",
        }
    }
}

/// What was found of a criterion: it holds or fails at every waterplane within the intervals, or neither.
#[derive(Clone, Copy, Debug, PartialEq, Eq)]
pub enum Finding {
    Holds,
    Fails,
    Unsure,
}

impl Finding {
    pub(crate) fn name(&self) -> &'static [u8]
        ensures { result.now ≡ finding_name self.now }
    {
        match self {
            Finding::Holds => b"holds",
            Finding::Fails => b"fails",
            Finding::Unsure => b"unsure",
        }
    }
}

/// The side to which the ship heels.
#[derive(Clone, Copy, Debug, PartialEq, Eq)]
pub enum SideLine {
    Port,
    Starboard,
}

impl SideLine {
    pub(crate) fn name(&self) -> &'static [u8]
        ensures { result.now ≡ side_name self.now }
    {
        match self {
            SideLine::Port => b"port",
            SideLine::Starboard => b"starboard",
        }
    }
}
