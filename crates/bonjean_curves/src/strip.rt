// The part of a station between two neighbouring points.
ghost use Rattle.std.specs.Prelude.{◌≡◌, ◌≤◌, ◌<◌, ◌+◌, ◌-◌, ◌*◌, ◌^◌, ℤ, pos, ◌<ℤ◌};
ghost use Rattle.hull_model.specs.Body.{IsPoint};
ghost use Rattle.bonjean_curves.specs.Trapezium.{thrice_moment, breadth_at, area_below, moment_below};

use crate::integrals::Integrals;
use hull_model::Point;

/// Two neighbouring points of a station, in mm: from the height `foot` with the half-breadth `lower` to
/// the height `head` with the half-breadth `upper`.
#[derive(Clone, Copy)]
pub(crate) struct Strip {
    pub(crate) foot: u64,
    pub(crate) head: u64,
    pub(crate) lower: u64,
    pub(crate) upper: u64,
    ghost rises: { foot < head },
    ghost within: { (head ≤ 65535) × (lower ≤ 65535) × (upper ≤ 65535) },
}

impl Strip {
    /// The strip between two points, the lower one first.
    pub(crate) fn between(low: &Point, high: &Point) -> Strip
        requires low { IsPoint low.now }
        requires high { IsPoint high.now }
        requires rises { low.now.z <ℤ high.now.z }
        ensures heights { (pos result.foot ≡ low.now.z) × (pos result.head ≡ high.now.z) }
        ensures breadths { (pos result.lower ≡ low.now.y) × (pos result.upper ≡ high.now.y) }
    {
        Strip {
            foot: low.z as u64,
            head: high.z as u64,
            lower: low.y as u64,
            upper: high.y as u64,
        }
    }

    pub(crate) fn rise(&self) -> u64
        ensures value { result ≡ self.now.head - self.now.foot }
        ensures bounds { (0 < result) × (result ≤ 65535) }
    {
        self.head - self.foot
    }

    /// The area of the full breadth, in mm².
    pub(crate) fn area(&self) -> u64
        ensures value { result ≡ (self.now.lower + self.now.upper) * (self.now.head - self.now.foot) }
        ensures bound { result ≤ 2 * 65535 ^ 2 }
    {
        (self.lower + self.upper) * self.rise()
    }

    /// Three times the moment of the full breadth about the base, in mm³.
    pub(crate) fn moment(&self) -> u64
        ensures value { result ≡ thrice_moment self.now.foot self.now.head self.now.lower self.now.upper * (self.now.head - self.now.foot) }
        ensures bound { result ≤ 6 * 65535 ^ 3 }
    {
        self.thrice_moment() * self.rise()
    }

    fn thrice_moment(&self) -> u64
        ensures value { result ≡ thrice_moment self.now.foot self.now.head self.now.lower self.now.upper }
        ensures bound { result ≤ 6 * 65535 ^ 2 }
    {
        self.foot * (2 * self.lower + self.upper) + self.head * (self.lower + 2 * self.upper)
    }

    // The half-breadth at a height, times the strip's rise.
    fn breadth_at(&self, height: u64) -> u64
        requires height { (self.now.foot ≤ height) × (height ≤ self.now.head) }
        ensures value { result ≡ breadth_at self.now.foot self.now.head self.now.lower self.now.upper height }
        ensures bound { result ≤ 2 * 65535 ^ 2 }
    {
        self.lower * (self.head - height) + self.upper * (height - self.foot)
    }

    /// The part below a draft between the foot and the head.
    pub(crate) fn below(&self, draft: u64) -> Integrals
        requires draft { (self.now.foot < draft) × (draft < self.now.head) }
        ensures rise { result.rise ≡ self.now.head - self.now.foot }
        ensures area { result.area ≡ area_below self.now.foot self.now.head self.now.lower self.now.upper draft }
        ensures moment { result.moment ≡ moment_below self.now.foot self.now.head self.now.lower self.now.upper draft }
        ensures part { (result.area < 2 ^ 51) × (result.moment < 2 ^ 69) }
    {
        let wet = draft - self.foot;
        let lower = self.breadth_at(self.foot);
        let upper = self.breadth_at(draft);
        let thrice = self.foot * (2 * lower + upper) + draft * (lower + 2 * upper);
        Integrals {
            area: (lower + upper) * wet,
            moment: u128::from(thrice) * u128::from(wet),
            rise: self.rise(),
        }
    }
}
