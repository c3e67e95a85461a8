// Numbers of directions, and the number of each degree.
ghost use Rattle.std.specs.Prelude.{◌≤◌, ◌^◌};
ghost use Rattle.angle_bounds.specs.Degrees.{IsNumberOf, IsDirectionOf};

use crate::{Degree, Triple};

/// The number of 90 degrees.
pub(crate) const LAST_NUMBER: u32 = 1 << 24;

/// The number of each degree from 0 to 90.
const NUMBERS: [u32; 91] = [
    0, 146412, 292847, 439326, 585873, 732509, 879256, 1026138, 1173177, 1320395, 1467816, 1615462,
    1763356, 1911522, 2059983, 2208762, 2357883, 2507371, 2657249, 2807543, 2958275, 3109473,
    3261160, 3413363, 3566107, 3719419, 3873325, 4027853, 4183029, 4338883, 4495441, 4652733,
    4810789, 4969637, 5129309, 5289835, 5451247, 5613577, 5776858, 5941123, 6106407, 6272744,
    6440169, 6608721, 6778435, 6949350, 7121505, 7294941, 7469697, 7645817, 7823344, 8002321,
    8182794, 8364811, 8548418, 8733665, 8920603, 9109285, 9299762, 9492092, 9686330, 9882535,
    10080768, 10281091, 10483568, 10688265, 10895251, 11104597, 11316375, 11530661, 11747533,
    11967071, 12189360, 12414486, 12642539, 12873610, 13107797, 13345200, 13585921, 13830069,
    14077755, 14329096, 14584211, 14843226, 15106273, 15373486, 15645007, 15920983, 16201569,
    16486924, 16777216,
];

/// The greatest number, of those from 0 to 2^24, whose direction is at most `k` degrees.
///
/// With p = 2^24, the number q gives the direction (p² - q², 2pq, p² + q²).
pub fn number_of(k: Degree) -> u32
    ensures number { IsNumberOf k.degrees result }
{
    NUMBERS[k.get() as usize]
}

/// The direction of a number.
pub(crate) fn direction_of(q: u32) -> Triple
    requires { q ≤ 2 ^ 24 }
    ensures { IsDirectionOf q result.c result.s result.r }
{
    let p = u64::from(LAST_NUMBER);
    let q = u64::from(q);
    Triple {
        c: p * p - q * q,
        s: 2 * p * q,
        r: p * p + q * q,
    }
}
