// Levels that were looked at.

/// Which end of the enclosure of the volume decides.
#[derive(Clone, Copy, Debug, PartialEq, Eq)]
pub(crate) enum End {
    Upper,
    Lower,
}

/// A level, in grid units, and how the enclosure of the volumes there lies to the need.
#[derive(Clone, Copy, Debug)]
pub(crate) struct Place {
    pub(crate) level: i64,
    /// The upper end is above the need.
    pub(crate) is_over: bool,
    /// The lower end is at least the need.
    pub(crate) reaches: bool,
}
