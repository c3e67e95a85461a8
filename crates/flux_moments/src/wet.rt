// The integrals of a wet body.
ghost use Rattle.std.specs.Prelude.{◌≡◌, pos};
ghost use Rattle.flux_moments.specs.Wets.{AllFields, CanAdd, CanSub, IsSum, IsDifference};

use crate::dry::nothing;
use outward_interval::Span;
use std::ops::{Add, Sub};

/// The volume in mm³ of the part of a body that lies below a waterplane, and its integrals in mm⁴: of x, of the
/// distance from the centreplane towards the low side, and of the height square to the direction.
#[derive(Clone, Copy, Debug, PartialEq, Eq)]
pub struct Wet {
    pub volume: Span<20>,
    pub mx: Span<20>,
    pub mv: Span<20>,
    pub mu: Span<20>,
}

impl Wet {
    /// No body.
    pub(crate) fn nothing() -> Wet
        ensures { AllFields (λ s. (s.lo ≡ pos 0) × (s.hi ≡ pos 0)) result }
    {
        let none = nothing();
        Wet {
            volume: none,
            mx: none,
            mv: none,
            mu: none,
        }
    }
}

/// Field by field: the ends of each sum must stay below 2^126 in magnitude.
impl Add for Wet {
    type Output = Wet;

    ghost can_add = { CanAdd };

    ghost add_gives = { IsSum };

    fn add(self, other: Wet) -> Wet {
        Wet {
            volume: self.volume + other.volume,
            mx: self.mx + other.mx,
            mv: self.mv + other.mv,
            mu: self.mu + other.mu,
        }
    }
}

/// Field by field: the ends of each difference must stay below 2^126 in magnitude.
impl Sub for Wet {
    type Output = Wet;

    ghost can_sub = { CanSub };

    ghost sub_gives = { IsDifference };

    fn sub(self, other: Wet) -> Wet {
        Wet {
            volume: self.volume - other.volume,
            mx: self.mx - other.mx,
            mv: self.mv - other.mv,
            mu: self.mu - other.mu,
        }
    }
}
