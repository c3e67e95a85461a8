// Where the next look is worth while. Nothing is claimed of it: a poor model costs looks, and no more. So what may leave
// its range saturates.
ghost use Rattle.std.specs.Prelude.{◌<◌};
ghost use Rattle.damage_box.specs.Balance.{IsLevel};

use crate::floats::Floats;
use crate::reading::{Place, Reading};
use crate::secant::Secant;
use outward_interval::Span;

/// The farthest level that is looked at, in grid units.
const FAR: i128 = 1 << 29;

/// The most planes that are read for a model.
const PLANES: u32 = 14;

/// Half of the least slope, in grid units.
const LEAST_HALF: i64 = 8192;

/// The residuals at a plane, and how they rise with its levels.
///
/// Seen from one end, as the readings are: `a` is the level at the nearer end. All but the levels is in `unit` units.
#[derive(Clone, Copy, Debug)]
pub(crate) struct Model {
    a: i64,
    f: i64,
    // The residual about the farther end, the other, and half of the widths of their enclosures.
    last: i128,
    first: i128,
    last_width: i128,
    first_width: i128,
    // How the first rises for each grid unit of `a`; of `f`, as the second does of `a`; and how the second does of `f`.
    last_a: i128,
    mixed: i128,
    first_f: i128,
    unit: i128,
    length: i64,
}

/// A model from the planes that lead to where both residuals are 0, of a hull whose whole volume is `full`.
pub(crate) fn model_of<F: Floats>(floats: &F, full: i128) -> Model {
    let low = floats.low();
    let height = i128::from(floats.high() - low).max(1);
    let length = floats.length();
    let rise = over(full, height).max(1);
    let start = moved(low, part(height, floats.need(), full));
    let mut model = Model::upright(start, rise, length, &floats.read(start, start));
    for _ in 0..PLANES {
        let at = model.nought(height);
        if is_near(at.a, model.a) && is_near(at.f, model.f) {
            break;
        }
        let a = moved(at.a, 0);
        let f = moved(at.f, 0);
        model.learn(Place { a, f }, &floats.read(a, f));
    }
    model
}

fn is_near(a: i64, b: i64) -> bool {
    a.saturating_sub(b).saturating_abs() <= 2
}

impl Model {
    /// The model of a hull that rises by so much volume for each grid unit, all along its length.
    fn upright(level: i64, rise: i128, length: i64, reading: &Reading) -> Model {
        let share = rise.saturating_mul(i128::from(length)) / 6;
        let unit = (share >> 39).max(1);
        let mut model = Model {
            a: level,
            f: level,
            last: 0,
            first: 0,
            last_width: 0,
            first_width: 0,
            last_a: part(share, 2, unit),
            mixed: over(share, unit),
            first_f: part(share, 2, unit),
            unit,
            length,
        };
        model.learn(Place { a: level, f: level }, reading);
        model
    }

    /// The same seen from the other end.
    pub(crate) fn turned(&self) -> Model {
        Model {
            a: self.f,
            f: self.a,
            last: self.first,
            first: self.last,
            last_width: self.first_width,
            first_width: self.last_width,
            last_a: self.first_f,
            first_f: self.last_a,
            ..*self
        }
    }

    fn determinant(&self) -> i128 {
        let square = self.mixed.saturating_mul(self.mixed);
        self.last_a
            .saturating_mul(self.first_f)
            .saturating_sub(square)
            .max(1)
    }

    /// Where both residuals are 0, no level farther off than `most`.
    fn nought(&self, most: i128) -> Place {
        let by_a = cross(self.first, self.mixed, self.last, self.first_f);
        let by_f = cross(self.last, self.mixed, self.first, self.last_a);
        Place {
            a: moved(self.a, within(over(by_a, self.determinant()), most)),
            f: moved(self.f, within(over(by_f, self.determinant()), most)),
        }
    }

    /// Takes a reading as its plane; where that lies some way off, the rises are mended by it, as little as is enough.
    pub(crate) fn learn(&mut self, at: Place, reading: &Reading) {
        let last = over(middle(reading.from_last), self.unit);
        let first = over(middle(reading.from_first), self.unit);
        let by_a = i128::from(at.a.saturating_sub(self.a));
        let by_f = i128::from(at.f.saturating_sub(self.f));
        let way = by_a
            .saturating_mul(by_a)
            .saturating_add(by_f.saturating_mul(by_f));
        if way >= 4 {
            let missed_last = last.saturating_sub(self.last_at(by_a, by_f));
            let missed_first = first.saturating_sub(self.first_at(by_a, by_f));
            self.mend(missed_last, missed_first, by_a, by_f, way);
        }
        self.a = at.a;
        self.f = at.f;
        self.last = last;
        self.first = first;
        self.last_width = over(half_width(reading.from_last), self.unit);
        self.first_width = over(half_width(reading.from_first), self.unit);
    }

    fn last_at(&self, by_a: i128, by_f: i128) -> i128 {
        sum_of(self.last, self.last_a, by_a, self.mixed, by_f)
    }

    fn first_at(&self, by_a: i128, by_f: i128) -> i128 {
        sum_of(self.first, self.mixed, by_a, self.first_f, by_f)
    }

    /// Changes the rises so that the residuals are met, by the least symmetric change.
    fn mend(&mut self, last: i128, first: i128, by_a: i128, by_f: i128, way: i128) {
        let both = part(last, by_a, way).saturating_add(part(first, by_f, way));
        let over_a = part(both, by_a, way);
        let over_f = part(both, by_f, way);
        let last_a = part(last, by_a, way)
            .saturating_mul(2)
            .saturating_sub(over_a.saturating_mul(by_a));
        let mixed = cross(part(last, by_f, way), 1, over_a, by_f).saturating_add(part(
            first, by_a, way,
        ));
        let first_f = part(first, by_f, way)
            .saturating_mul(2)
            .saturating_sub(over_f.saturating_mul(by_f));
        let mended = Model {
            last_a: self.last_a.saturating_add(last_a),
            mixed: self.mixed.saturating_add(mixed),
            first_f: self.first_f.saturating_add(first_f),
            ..*self
        };
        if mended.last_a > 0
            && mended.first_f > 0
            && mended.mixed >= 0
            && mended.determinant() > 1
        {
            *self = mended;
        }
    }

    /// The number of the slope on which a search may start: the least of those that are well above that of the plane.
    pub(crate) fn slope(&self) -> u32
        ensures { result < 16 }
    {
        let at = self.nought(FAR);
        let slope = at.f.saturating_sub(at.a);
        let wanted = slope
            .saturating_add(slope.saturating_abs() / 8)
            .saturating_add(2048);
        for number in 0..15u32 {
            if wanted < (LEAST_HALF * 2) << number {
                return number;
            }
        }
        15
    }

    /// The level in the middle of the plane of a slope below which enough is left.
    pub(crate) fn on_slope(&self, half: i64) -> Secant {
        let at = self.nought(FAR);
        let by_a = self.last_a.saturating_add(self.mixed);
        let by_f = self.mixed.saturating_add(self.first_f);
        let both = by_a.saturating_add(by_f).max(1);
        let turn = half
            .saturating_mul(2)
            .saturating_sub(at.f.saturating_sub(at.a));
        let level = at.a.saturating_add(half);
        let rise = over(both, i128::from(self.length)).saturating_mul(self.unit);
        Secant::new(
            moved(level, part(i128::from(turn), by_f, both).saturating_neg()),
            rise,
        )
    }

    /// The level in a column at which the residual about the nearer end is 0.
    pub(crate) fn in_column(&self, a: i64) -> Secant {
        Secant::new(self.row(a), self.first_f.saturating_mul(self.unit))
    }

    /// The least level in a column at which the residual about the nearer end is enclosed above 0.
    fn row(&self, a: i64) -> i64 {
        let by_a = i128::from(a.saturating_sub(self.a));
        let owed = self.first_width.saturating_sub(self.first_at(by_a, 0));
        moved(self.f, ceiling(owed, self.first_f))
    }

    fn has_signs(&self, a: i64, f: i64) -> bool {
        let by_a = i128::from(a.saturating_sub(self.a));
        let by_f = i128::from(f.saturating_sub(self.f));
        self.last_at(by_a, by_f).saturating_add(self.last_width) <= 0
            && self.first_at(by_a, by_f) >= self.first_width
    }

    /// The corner from which neither level can move inwards.
    pub(crate) fn corner(&self) -> Place {
        let at = self.nought(FAR);
        for back in 0..6u32 {
            let a = at.a.saturating_add(1).saturating_sub(i64::from(back));
            let f = self.row(a);
            if self.has_signs(a, f) {
                return Place { a, f };
            }
        }
        // A narrow wedge: so far back that a whole grid unit fits into it.
        let room = self
            .mixed
            .saturating_add(self.last_width)
            .saturating_mul(self.first_f);
        let room = room.saturating_add(self.first_width.saturating_mul(self.mixed));
        let back = over(room, self.determinant()).saturating_add(1);
        let a = moved(at.a, back.saturating_neg());
        Place { a, f: self.row(a) }
    }
}

// A level so far on.
fn moved(level: i64, by: i128) -> i64
    ensures { IsLevel result }
{
    i128::from(level).saturating_add(by).clamp(-FAR, FAR) as i64
}

fn within(by: i128, most: i128) -> i128 {
    by.min(most).max(most.saturating_neg())
}

fn middle(span: Span<20>) -> i128 {
    span.lo() / 2 + span.hi() / 2
}

fn half_width(span: Span<20>) -> i128 {
    (span.hi() / 2 - span.lo() / 2).saturating_add(1)
}

fn over(n: i128, d: i128) -> i128 {
    n / d.max(1)
}

// The ceiling of n / d.
fn ceiling(n: i128, d: i128) -> i128 {
    let d = d.max(1);
    n.saturating_add(d.saturating_sub(1)).div_euclid(d)
}

// n · m / d.
fn part(n: i128, m: i128, d: i128) -> i128 {
    over(n.saturating_mul(m), d)
}

// n · m - k · l.
fn cross(n: i128, m: i128, k: i128, l: i128) -> i128 {
    n.saturating_mul(m).saturating_sub(k.saturating_mul(l))
}

fn sum_of(start: i128, n: i128, m: i128, k: i128, l: i128) -> i128 {
    start
        .saturating_add(n.saturating_mul(m))
        .saturating_add(k.saturating_mul(l))
}
