// The fore corner of a box, moved inwards.
ghost use Rattle.std.specs.Prelude.{◌≡◌, ◌⊎◌, true, None, IfSome, ℤ, pos, ◌+ℤ◌, ◌-ℤ◌, ◌≤ℤ◌, ◌<ℤ◌};
ghost use Rattle.damage_box.specs.Balance.{IsLevel, IsLastPassed, IsFirstKept, IsFirstPassed, HasSigns, IsSharp, AreLimits, IsInward};

use crate::floats::Floats;
use crate::looks::{InColumn, first_kept, has_signs, is_last_kept};
use crate::model::Model;
use crate::neighbours::{between, crossing};
use crate::reading::Place;

/// The most corners of the model that are looked at.
const JUMPS: u32 = 4;

/// A level from `least` to `from` where the residual about the first station isn't below 0, which is so at `from`.
fn row<F: Floats>(floats: &F, model: &Model, a: i64, from: i64, least: i64) -> i64
    requires a_level { IsLevel a }
    requires from_level { IsLevel from }
    requires least_level { IsLevel least }
    requires order { least ≤ℤ from }
    requires kept { IsFirstKept (F.balance floats.now) a from }
    ensures least { least ≤ℤ result }
    ensures most { result ≤ℤ from }
    ensures first { IsFirstKept (F.balance floats.now) a result }
{
    let test = InColumn { floats, a };
    crossing(&test, model.in_column(a), least - 1, from)
}

/// The row in the column `a`, where the residual about the last station has its sign there.
fn column<F: Floats>(floats: &F, model: &Model, a: i64, from: i64, least: i64) -> Option<i64>
    requires a_level { IsLevel a }
    requires from_level { IsLevel from }
    requires least_level { IsLevel least }
    requires order { least ≤ℤ from }
    requires kept { IsFirstKept (F.balance floats.now) a from }
    ensures least { IfSome result (λ f. least ≤ℤ f) }
    ensures most { IfSome result (λ f. f ≤ℤ from) }
    ensures signs { IfSome result (λ f. HasSigns (F.balance floats.now) a f) }
{
    let f = row(floats, model, a, from, least);
    if is_last_kept(floats, a, f) {
        Some(f)
    } else {
        None
    }
}

/// The corner of the last column that is found to have both signs.
fn columns<F: Floats>(floats: &F, model: &Model, from: Place, limit: Place) -> Place
    requires limits { AreLimits from.a from.f limit.a limit.f }
    requires signs { HasSigns (F.balance floats.now) from.a from.f }
    ensures { IsInward (F.balance floats.now) from.a from.f limit.a limit.f result.a result.f }
{
    let mut a = from.a;
    let mut f = from.f;
    let mut passed = limit.a + 1;
    while passed - a > 1 {
        let next = between(a, passed, onward(from.a, a, passed));
        match column(floats, model, next, f, limit.f) {
            Some(row) => {
                a = next;
                f = row;
            }
            None => passed = next,
        }
    }
    Place { a, f }
}

// Farther on from where a search began, twice as far as before but not past the middle.
fn onward(begin: i64, a: i64, passed: i64) -> i64 {
    let twice = a.saturating_add(a.saturating_sub(begin)).saturating_add(1);
    twice.min(a / 2 + passed / 2)
}

/// A corner between the one handed in and the limit where the model expects the last one with both signs, if it has them.
fn jumped<F: Floats>(floats: &F, model: &Model, from: Place, limit: Place) -> Place
    requires limits { AreLimits from.a from.f limit.a limit.f }
    requires signs { HasSigns (F.balance floats.now) from.a from.f }
    ensures { IsInward (F.balance floats.now) from.a from.f limit.a limit.f result.a result.f }
{
    let mut model = *model;
    for _ in 0..JUMPS {
        let at = model.corner();
        if !is_between(at, from, limit) {
            return from;
        }
        let reading = floats.read(at.a, at.f);
        if has_signs(&reading) {
            return at;
        }
        model.learn(at, &reading);
    }
    from
}

fn is_between(at: Place, from: Place, limit: Place) -> bool
    ensures a_from { result ≡ true → from.a ≤ℤ at.a }
    ensures a_to { result ≡ true → at.a ≤ℤ limit.a }
    ensures f_from { result ≡ true → limit.f ≤ℤ at.f }
    ensures f_to { result ≡ true → at.f ≤ℤ from.f }
{
    is_within(from.a, at.a, limit.a) && is_within(limit.f, at.f, from.f)
}

fn is_within(low: i64, level: i64, high: i64) -> bool
    ensures from { result ≡ true → low ≤ℤ level }
    ensures to { result ≡ true → level ≤ℤ high }
{
    low <= level && level <= high
}

/// A corner that lies farther inwards by its level at the first station, if a look there doesn't lack its sign.
fn moved_last<F: Floats>(floats: &F, model: &Model, at: Place, limit: Place) -> Option<Place>
    requires limits { AreLimits at.a at.f limit.a limit.f }
    requires signs { HasSigns (F.balance floats.now) at.a at.f }
    ensures none { result ≡ None → (at.a ≡ limit.a) ⊎ IsLastPassed (F.balance floats.now) (at.a +ℤ pos 1) at.f }
    ensures some { IfSome result (λ p. IsInward (F.balance floats.now) (at.a +ℤ pos 1) at.f limit.a limit.f p.a p.f) }
{
    if at.a == limit.a {
        return None;
    }
    if is_last_kept(floats, at.a + 1, at.f) {
        Some(columns(
            floats,
            model,
            Place {
                a: at.a + 1,
                f: at.f,
            },
            limit,
        ))
    } else {
        None
    }
}

/// A corner that lies farther inwards by its level at the last station, if a look there doesn't lack its sign.
fn moved_first<F: Floats>(floats: &F, model: &Model, at: Place, limit: Place) -> Option<Place>
    requires limits { AreLimits at.a at.f limit.a limit.f }
    requires signs { HasSigns (F.balance floats.now) at.a at.f }
    ensures none { result ≡ None → (at.f ≡ limit.f) ⊎ IsFirstPassed (F.balance floats.now) at.a (at.f -ℤ pos 1) }
    ensures some { IfSome result (λ p. IsInward (F.balance floats.now) at.a (at.f -ℤ pos 1) limit.a limit.f p.a p.f) }
{
    if at.f == limit.f {
        return None;
    }
    if first_kept(floats, at.a, at.f - 1).is_passed {
        Some(columns(
            floats,
            model,
            Place {
                a: at.a,
                f: at.f - 1,
            },
            limit,
        ))
    } else {
        None
    }
}

/// The fore corner moved inwards, up to the limit, until neither of its levels can move by one grid unit.
pub(crate) fn narrowed<F: Floats>(floats: &F, model: &Model, from: Place, limit: Place) -> Place
    requires limits { AreLimits from.a from.f limit.a limit.f }
    requires signs { HasSigns (F.balance floats.now) from.a from.f }
    ensures inward { IsInward (F.balance floats.now) from.a from.f limit.a limit.f result.a result.f }
    ensures sharp { IsSharp (F.balance floats.now) result.a result.f limit.a limit.f }
{
    let mut at = jumped(floats, model, from, limit);
    loop {
        match moved_last(floats, model, at, limit) {
            Some(next) => at = next,
            None => match moved_first(floats, model, at, limit) {
                Some(next) => at = next,
                None => return at,
            },
        }
    }
}
