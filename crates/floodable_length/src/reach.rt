// How far flooding may reach.
use damage_box::DraftBox;

/// The floodable length at a centre, as far as it was found.
///
/// Lengths are in mm, multiples of the step. `safe` is a length that is safe, with the box of levels in which the ship then
/// floats; it is None where the ship isn't safe although nothing floods. `next` is the length one step longer, or 0 where
/// `safe` is None, and the reason why it isn't safe.
#[derive(Clone, Copy, Debug, PartialEq, Eq)]
pub struct Reach {
    pub safe: Option<(i64, DraftBox)>,
    pub next: (i64, Reason),
}

/// Why a length isn't safe: the first of these that holds. Stations count from 0, and the first one is named.
#[derive(Clone, Copy, Debug, PartialEq, Eq)]
pub enum Reason {
    /// It reaches past the first station or the last.
    EndOfShip,
    /// The hull that is left is too small for the load.
    Sinks,
    /// No corner was found from which the search for a box may start.
    NoStart,
    /// At the station the least level of the box is above the margin line.
    Over { station: u32, at: DraftBox },
    /// At the station the greatest level of the box is above the margin line.
    Touch { station: u32, at: DraftBox },
}
