// The share of the triangle that is wet, and the means of coordinates and of their products on it.
ghost use Rattle.std.specs.Prelude.{◌≡◌, ◌+◌, ◌*◌, ◌^◌, ◌≤◌};
ghost use Rattle.plane_clip.specs.Rounded.{tip_shares, tip_at, tip_ends, rest_ends, shares_by, second_shares, third_shares};

use crate::rounding::{ONE, bound_of, over_six, over_three, over_twelve, rest_of, scaled};

/// The share, the means of the coordinate of each corner, and those of the product of two, in units of 2^-40.
#[derive(Clone, Copy)]
pub(crate) struct Shares {
    pub(crate) share: u64,
    pub(crate) c0: u64,
    pub(crate) c1: u64,
    pub(crate) c2: u64,
    pub(crate) p00: u64,
    pub(crate) p01: u64,
    pub(crate) p02: u64,
    pub(crate) p11: u64,
    pub(crate) p12: u64,
    pub(crate) p22: u64,
}

const NOTHING: Shares = Shares {
    share: 0,
    c0: 0,
    c1: 0,
    c2: 0,
    p00: 0,
    p01: 0,
    p02: 0,
    p11: 0,
    p12: 0,
    p22: 0,
};

/// Of the whole triangle, rounded down and up.
const WHOLE_DOWN: Shares = Shares {
    share: 1099511627776,
    c0: 366503875925,
    c1: 366503875925,
    c2: 366503875925,
    p00: 183251937962,
    p01: 91625968981,
    p02: 91625968981,
    p11: 183251937962,
    p12: 91625968981,
    p22: 183251937962,
};

const WHOLE_UP: Shares = Shares {
    share: 1099511627776,
    c0: 366503875926,
    c1: 366503875926,
    c2: 366503875926,
    p00: 183251937963,
    p01: 91625968982,
    p02: 91625968982,
    p11: 183251937963,
    p12: 91625968982,
    p22: 183251937963,
};

impl Shares {
    /// With the second corner in the first's place.
    pub(crate) fn second(self) -> Shares
        ensures { result ≡ second_shares self }
    {
        Shares {
            share: self.share,
            c0: self.c2,
            c1: self.c0,
            c2: self.c1,
            p00: self.p22,
            p01: self.p02,
            p02: self.p12,
            p11: self.p00,
            p12: self.p01,
            p22: self.p11,
        }
    }

    /// With the third corner in the first's place.
    pub(crate) fn third(self) -> Shares
        ensures { result ≡ third_shares self }
    {
        self.second().second()
    }

    // The means over a tip.
    fn over_tip(self, up: bool) -> Shares
        ensures { result ≡ tip_ends up self }
    {
        Shares {
            share: self.share,
            c0: over_three(self.c0, up),
            c1: over_three(self.c1, up),
            c2: over_three(self.c2, up),
            p00: over_six(self.p00, up),
            p01: over_twelve(self.p01, up),
            p02: over_twelve(self.p02, up),
            p11: over_six(self.p11, up),
            p12: over_twelve(self.p12, up),
            p22: over_six(self.p22, up),
        }
    }

    // The means over what a tip leaves of the triangle.
    fn beside_tip(self, up: bool) -> Shares
        ensures { result ≡ rest_ends up self }
    {
        let left = Shares {
            share: ONE.saturating_sub(self.share),
            c0: ONE.saturating_sub(self.c0),
            c1: ONE.saturating_sub(self.c1),
            c2: ONE.saturating_sub(self.c2),
            p00: ONE.saturating_sub(self.p00),
            p01: ONE.saturating_sub(self.p01),
            p02: ONE.saturating_sub(self.p02),
            p11: ONE.saturating_sub(self.p11),
            p12: ONE.saturating_sub(self.p12),
            p22: ONE.saturating_sub(self.p22),
        };
        left.over_tip(up)
    }
}

// The numbers of a tip by bounds of the parts of its edges and of their complements. All terms are sums of products
// of numbers that aren't below 0, so that bounds of the parts give bounds of the result.
fn tip(t: u64, s: u64, u: u64, v: u64, up: bool) -> Shares
    requires parts { (t ≤ 2 ^ 40 + 1) × (s ≤ 2 ^ 40 + 1) }
    requires rests { (u ≤ 2 ^ 40) × (v ≤ 2 ^ 40) }
    ensures { result ≡ tip_shares up t s u v }
{
    let share = scaled(t, s, up);
    let c1 = scaled(share, t, up);
    let c2 = scaled(share, s, up);
    let squares = ONE + u + v + scaled(u, u, up) + scaled(v, v, up) + scaled(u, v, up);
    Shares {
        share,
        c0: scaled(share, ONE + u + v, up),
        c1,
        c2,
        p00: scaled(share, squares, up),
        p01: scaled(c1, ONE + 2 * u + v, up),
        p02: scaled(c2, ONE + u + 2 * v, up),
        p11: scaled(c1, t, up),
        p12: scaled(c1, s, up),
        p22: scaled(c2, s, up),
    }
}

fn tip_by_parts(t: u64, s: u64, up: bool) -> Shares
    requires { (t ≤ 2 ^ 40) × (s ≤ 2 ^ 40) }
    ensures { result ≡ tip_at up t s }
{
    tip(
        bound_of(t, up),
        bound_of(s, up),
        rest_of(t, up),
        rest_of(s, up),
        up,
    )
}

/// The means where the first corner may lie alone on its side, with the parts of its edges.
///
/// What is left beside a tip is the least where the tip is the greatest.
pub(crate) fn shares_of(first: bool, others: bool, t: u64, s: u64, up: bool) -> Shares
    requires { (t ≤ 2 ^ 40) × (s ≤ 2 ^ 40) }
    ensures { result ≡ shares_by up first others t s }
{
    match (first, others) {
        (false, false) => NOTHING,
        (true, true) => { if up { WHOLE_UP } else { WHOLE_DOWN } }
        (true, false) => tip_by_parts(t, s, up).over_tip(up),
        (false, true) => tip_by_parts(t, s, !up).beside_tip(up),
    }
}
