// All means at corner depths of whole units. The corner that lies alone on its side of the water is taken first, the
// others follow in turn, and the results are turned back.
ghost use Rattle.std.specs.Prelude.{◌≡◌};
ghost use Rattle.plane_clip.specs.Rounded.{Near, AreSmall, first_depths, first_shares, depth_ends, share_ends, second_shares};

use crate::depths::{Depths, depths_of};
use crate::rounding::{is_under_water, part_at};
use crate::shares::{Shares, shares_of};

#[derive(Clone, Copy)]
pub(crate) struct Means {
    pub(crate) depths: Depths,
    pub(crate) shares: Shares,
}

impl Means {
    fn second(self) -> Means
        ensures depths { (result.depths.depth ≡ self.depths.depth) × (result.depths.first ≡ self.depths.third) × (result.depths.second ≡ self.depths.first) × (result.depths.third ≡ self.depths.second) }
        ensures shares { result.shares ≡ second_shares self.shares }
    {
        Means {
            depths: self.depths.second(),
            shares: self.shares.second(),
        }
    }
}

fn first_depths_at(x: i64, y: i64, z: i64, up: bool) -> Depths
    requires near { Near x × Near y × Near z }
    ensures depth { result.depth ≡ (first_depths up x y z).depth }
    ensures first { result.first ≡ (first_depths up x y z).first }
    ensures second { result.second ≡ (first_depths up x y z).second }
    ensures third { result.third ≡ (first_depths up x y z).third }
    ensures small { AreSmall result.depth result.first result.second result.third }
{
    depths_of(x, y, z, part_at(x, y), part_at(x, z), up)
}

/// The depth means alone.
pub(crate) fn depths_at(x: i64, y: i64, z: i64, up: bool) -> Depths
    requires near { Near x × Near y × Near z }
    ensures depth { result.depth ≡ (depth_ends up x y z).depth }
    ensures first { result.first ≡ (depth_ends up x y z).first }
    ensures second { result.second ≡ (depth_ends up x y z).second }
    ensures third { result.third ≡ (depth_ends up x y z).third }
    ensures small { AreSmall result.depth result.first result.second result.third }
{
    match (is_under_water(x), is_under_water(y), is_under_water(z)) {
        (false, true, false) | (true, false, true) => first_depths_at(y, z, x, up).second(),
        (false, false, true) | (true, true, false) => {
            first_depths_at(z, x, y, up).second().second()
        }
        _ => first_depths_at(x, y, z, up),
    }
}

fn first_means_at(x: i64, y: i64, z: i64, up: bool) -> Means
    requires near { Near x × Near y × Near z }
    ensures depth { result.depths.depth ≡ (first_depths up x y z).depth }
    ensures first { result.depths.first ≡ (first_depths up x y z).first }
    ensures second { result.depths.second ≡ (first_depths up x y z).second }
    ensures third { result.depths.third ≡ (first_depths up x y z).third }
    ensures small { AreSmall result.depths.depth result.depths.first result.depths.second result.depths.third }
    ensures shares { result.shares ≡ first_shares up x y z }
{
    let (t, s) = (part_at(x, y), part_at(x, z));
    Means {
        depths: depths_of(x, y, z, t, s, up),
        shares: shares_of(is_under_water(x), is_under_water(y), t, s, up),
    }
}

/// All means.
pub(crate) fn means_at(x: i64, y: i64, z: i64, up: bool) -> Means
    requires near { Near x × Near y × Near z }
    ensures depth { result.depths.depth ≡ (depth_ends up x y z).depth }
    ensures first { result.depths.first ≡ (depth_ends up x y z).first }
    ensures second { result.depths.second ≡ (depth_ends up x y z).second }
    ensures third { result.depths.third ≡ (depth_ends up x y z).third }
    ensures small { AreSmall result.depths.depth result.depths.first result.depths.second result.depths.third }
    ensures shares { result.shares ≡ share_ends up x y z }
{
    match (is_under_water(x), is_under_water(y), is_under_water(z)) {
        (false, true, false) | (true, false, true) => first_means_at(y, z, x, up).second(),
        (false, false, true) | (true, true, false) => {
            first_means_at(z, x, y, up).second().second()
        }
        _ => first_means_at(x, y, z, up),
    }
}
