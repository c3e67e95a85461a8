// Which length is worth a look. Nothing is claimed of a guess: a poor one costs looks, and no more. So what may leave its
// range saturates.

use crate::gap::Gap;

/// A length that was looked at, in steps, and how far the margin line was above the water at its nearest station.
#[derive(Clone, Copy, Debug)]
pub(crate) struct Tried {
    pub(crate) length: i64,
    pub(crate) clearance: i64,
}

/// A guess, mended by each look.
#[derive(Clone, Copy, Debug)]
pub(crate) struct Guess {
    last: Tried,
    before: Option<Tried>,
    // How many looks may still leave over half of a gap: at first as many as halving takes.
    spare: u32,
}

impl Guess {
    /// A guess by the clearance of the ship with nothing flooded.
    pub(crate) fn new(gap: &Gap, clearance: i64) -> Guess {
        Guess {
            last: Tried {
                length: 0,
                clearance,
            },
            before: None,
            spare: halvings(gap),
        }
    }

    /// Where to look next in a gap.
    pub(crate) fn length(&self, gap: &Gap) -> i64 {
        match self.before {
            _ if self.spare == 0 => part(gap, 1, 2),
            // Short of the middle: where too much floods for the ship to settle, a look takes the longest.
            None => part(gap, 2, 5),
            Some(before) => match crossing(before, self.last) {
                Some(length) => length,
                None => part(gap, 1, 2),
            },
        }
    }

    /// Learns from a look, which left a part of a gap.
    pub(crate) fn learn(&mut self, tried: Option<Tried>, gap: &Gap, left: &Gap) {
        match tried {
            Some(tried) => {
                self.before = Some(self.last);
                self.last = tried;
            }
            // The line led to where the ship doesn't settle: it begins anew.
            None => self.before = None,
        }
        if halvings(left) >= halvings(gap) {
            self.spare = self.spare.saturating_sub(1);
        }
    }
}

// How many looks halving takes at most.
fn halvings(gap: &Gap) -> u32 {
    let between = gap.next.saturating_sub(gap.safe).saturating_sub(1);
    i64::BITS - between.max(0).leading_zeros()
}

// The length at n / d of a gap.
fn part(gap: &Gap, n: i64, d: i64) -> i64 {
    let width = gap.next.saturating_sub(gap.safe);
    gap.safe.saturating_add(width.saturating_mul(n) / d.max(1))
}

// Where the line through two looks has no clearance, rounded towards the later one.
fn crossing(before: Tried, last: Tried) -> Option<i64> {
    let way = i128::from(last.length.saturating_sub(before.length));
    let fall = i128::from(before.clearance).saturating_sub(i128::from(last.clearance));
    let steps = i128::from(last.clearance)
        .saturating_mul(way)
        .checked_div(fall)?;
    let length = i128::from(last.length).saturating_add(steps);
    Some(length.clamp(0, i128::from(i64::MAX)) as i64)
}
