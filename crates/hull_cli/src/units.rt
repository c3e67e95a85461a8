// How figures are printed.

/// Decimals of figures.
pub(crate) const PLACES: u32 = 6;

/// Of a span in mm, or in mm·rad, the power of ten to m.
pub(crate) const TO_METRES: u32 = 3;
