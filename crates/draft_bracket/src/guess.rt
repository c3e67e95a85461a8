// Where the next look is worth while. Nothing is claimed of a guess: a poor one costs looks, and no more. So what may
// leave its range saturates.
ghost use Rattle.std.specs.Prelude.{◌≤◌, ◌^◌, ◌<ℤ◌, unsigned_abs};
ghost use Rattle.exact_fraction.specs.Bounds.{MagnitudeBelow};

use crate::need::Need;
use crate::place::End;
use outward_interval::Span;

/// The farthest that a guess lies from the last look, in grid units.
const MOST_STEPS: i128 = 1 << 30;

/// What is remembered of earlier looks and brackets.
///
/// Handed from one direction to the next, it lets the levels of neighbouring directions say where to look first.
#[derive(Clone, Copy, Debug)]
pub struct Guess {
    level: i64,
    // Rise of the volume for each grid unit, in units of 2^-20 mm³.
    slope: i128,
    last: Option<Reading>,
    // The lower levels of the last brackets, the latest first.
    brackets: [i64; 3],
    count: u32,
}

/// The ends of an enclosure less the need, in units of 2^-20 mm³.
#[derive(Clone, Copy, Debug)]
struct Reading {
    level: i64,
    low: i128,
    high: i128,
    ghost range: { unsigned_abs level ≤ 2 ^ 28 },
}

impl Reading {
    fn excess(&self, end: End) -> i128 {
        match end {
            End::Upper => self.high,
            End::Lower => self.low,
        }
    }
}

impl Guess {
    /// A guess with nothing to go by.
    pub fn new() -> Guess {
        Guess {
            level: 0,
            slope: 0,
            last: None,
            brackets: [0; 3],
            count: 0,
        }
    }

    /// Begins a search between two levels, between which the volume rises from 0 to a sixth of `six`.
    pub(crate) fn begin(&mut self, bottom: i64, top: i64, six: i128)
        requires order { bottom <ℤ top }
        requires bottom_range { unsigned_abs bottom ≤ 2 ^ 28 }
        requires top_range { unsigned_abs top ≤ 2 ^ 28 }
        requires six { MagnitudeBelow 78 six }
    {
        self.last = None;
        if self.count == 0 {
            self.slope = ((six / 6) << 20) / i128::from(top - bottom);
        }
        let [last, before, first] = self.brackets;
        let step = last.saturating_sub(before);
        let turn = step.saturating_sub(before.saturating_sub(first));
        self.level = match self.count {
            0 => (bottom + top) / 2,
            1 => last,
            2 => last.saturating_add(step),
            _ => last.saturating_add(step).saturating_add(turn),
        };
    }

    /// Turns to the other end of the enclosure, by the last look.
    pub(crate) fn turn_to(&mut self, end: End) {
        if let Some(last) = self.last {
            self.level = beyond(last.level, last.excess(end), self.slope);
        }
    }

    /// The level to look at next, at a turn of a search between two levels: the guess, and in long searches the
    /// middle at every second turn.
    pub(crate) fn level_at(&self, turn: u32, low: i64, high: i64) -> i64
        requires low { unsigned_abs low ≤ 2 ^ 28 }
        requires high { unsigned_abs high ≤ 2 ^ 28 }
    {
        if turn < 6 || turn % 2 == 1 {
            self.level
        } else {
            low + (high - low) / 2
        }
    }

    /// Learns from a look.
    pub(crate) fn learn(&mut self, end: End, level: i64, volume: Span<20>, need: &Need)
        requires { unsigned_abs level ≤ 2 ^ 28 }
    {
        let reading = Reading {
            level,
            low: volume.lo() - need.units.hi(),
            high: volume.hi() - need.units.lo(),
        };
        if let Some(last) = self.last {
            let way = i128::from(level - last.level);
            let rise = reading.excess(end).saturating_sub(last.excess(end));
            self.slope = match rise.checked_div(way) {
                Some(slope) if slope > 0 => slope,
                _ => self.slope / 8,
            };
        }
        self.level = beyond(level, reading.excess(end), self.slope);
        self.last = Some(reading);
    }

    /// Ends a search, which found this lower level.
    pub(crate) fn found(&mut self, level: i64) {
        let [last, before, _] = self.brackets;
        self.brackets = [level, last, before];
        self.count = self.count.saturating_add(1);
    }
}

// Where a line of this slope from an excess at a level is at nought: a grid unit away at least.
fn beyond(level: i64, excess: i128, slope: i128) -> i64
    requires { unsigned_abs level ≤ 2 ^ 28 }
{
    let slope = slope.max(1);
    if excess > 0 {
        level - steps(excess.saturating_add(slope - 1) / slope)
    } else {
        level + steps(excess.saturating_neg() / slope)
    }
}

fn steps(count: i128) -> i64
    ensures { unsigned_abs result ≤ 2 ^ 30 }
{
    count.clamp(1, MOST_STEPS) as i64
}
