// Openings through which water comes in.
ghost use Rattle.hull_model.specs.Limits.{IsOpening};

/// An opening by its distance `y` from the centreplane and its height `z` above the base.
///
/// Both in whole mm: `y` from 0 to 65535, `z` from 0 to 131071. It stands on both sides of the ship.
#[derive(Clone, Copy, Debug, PartialEq, Eq)]
pub struct Opening {
    pub y: i64,
    pub z: i64,
    ghost limits: { IsOpening y z },
}
