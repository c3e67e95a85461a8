// The level at which a quantity that rises with it is likely to be 0.
/// The farthest that a guess lies from the last look, in grid units.
const MOST_STEPS: i128 = 1 << 30;

/// How many looks follow the line alone.
const PATIENCE: u32 = 6;

/// A guess, mended by each look. Nothing rests on it but speed.
#[derive(Clone, Copy, Debug)]
pub(crate) struct Secant {
    level: i64,
    // How much the quantity rises for each grid unit.
    slope: i128,
    last: Option<Look>,
    turn: u32,
}

#[derive(Clone, Copy, Debug)]
struct Look {
    level: i64,
    over: i128,
}

impl Secant {
    pub(crate) fn new(level: i64, slope: i128) -> Secant {
        Secant {
            level,
            slope,
            last: None,
            turn: 0,
        }
    }

    /// Where to look next: the guess, or the middle where a guess would have to lie beyond it.
    pub(crate) fn level(&self, low: i64, high: i64) -> i64 {
        if self.room() <= high / 2 - low / 2 {
            self.level
        } else {
            low / 2 + high / 2
        }
    }

    // The least way of a guess from the last look. In long searches a miss doubles it.
    fn room(&self) -> i64 {
        match self.turn.checked_sub(PATIENCE) {
            Some(misses) => 1 << misses.min(30),
            None => 0,
        }
    }

    /// Learns from a look: the quantity is over 0 by so much.
    pub(crate) fn learn(&mut self, level: i64, over: i128) {
        if let Some(last) = self.last {
            let way = i128::from(level.saturating_sub(last.level));
            let rise = over.saturating_sub(last.over);
            self.slope = match rise.checked_div(way) {
                Some(slope) if slope > 0 => slope,
                _ => self.slope / 8,
            };
        }
        self.last = Some(Look { level, over });
        self.turn = self.turn.saturating_add(1);
        self.level = beyond(level, over, self.slope, self.room());
    }
}

// Where a line of this slope is at 0: a grid unit away at least, and no less than the room.
fn beyond(level: i64, over: i128, slope: i128, room: i64) -> i64 {
    let slope = slope.max(1);
    if over >= 0 {
        let way = steps(over.saturating_add(slope.saturating_sub(1)) / slope);
        level.saturating_sub(way.max(room))
    } else {
        level.saturating_add(steps(over.saturating_neg() / slope).max(room))
    }
}

fn steps(count: i128) -> i64 {
    count.clamp(1, MOST_STEPS) as i64
}
