// Where the search for a corner starts.
ghost use Rattle.std.specs.Prelude.{◌≡◌, ◌<◌, ◌↔◌, true, false, ℕ, IfOk, IfErr, ◌≤ℤ◌, ◌<ℤ◌, ℤ, pos, ◌+ℤ◌, ◌-ℤ◌, ◌^◌};
ghost use Rattle.damage_box.specs.Balance.{IsLevel, IsHalf, IsOnSlope, IsCandidate};
ghost use Rattle.damage_box.specs.Candidates.{half_of};
ghost use Rattle.damage_box.specs.Reading.{IsTried, Qualifies, IsStart, AreTried};

use crate::floats::Floats;
use crate::looks::OnSlope;
use crate::model::Model;
use crate::neighbours::crossing;
use crate::reading::Corner;

/// The level of the candidate for the planes from `level - half` to `level + half`.
fn candidate<F: Floats>(floats: &F, model: &Model, half: i64) -> i64
    requires half { IsHalf half }
    ensures candidate { IsCandidate (F.balance floats.now) half result }
    ensures levels { IsOnSlope result half }
{
    let first = floats.low() - half;
    let last = floats.high() + half;
    let test = OnSlope { floats, half };
    crossing(&test, model.on_slope(half), first - 1, last)
}

/// The candidate's corner, with its residuals.
fn tried_at<F: Floats>(floats: &F, model: &Model, half: i64) -> Corner
    requires half { IsHalf half }
    ensures tried { IsTried (F.balance floats.now) half result }
    ensures a_level { IsLevel result.a }
    ensures f_level { IsLevel result.f }
{
    let level = candidate(floats, model, half);
    let a = level - half;
    let f = level + half;
    let reading = floats.read(a, f);
    Corner {
        a,
        f,
        r1: reading.from_last,
        r2: reading.from_first,
    }
}

/// Whether both residuals are enclosed on their sides of 0.
fn qualifies(corner: &Corner) -> bool
    ensures pass { result ≡ true → Qualifies corner.now }
    ensures fail { result ≡ false → Qualifies corner.now → ⊥ }
{
    corner.r1.hi() < 0 && corner.r2.lo() > 0
}

/// A candidate that qualifies, where the model says so; else the first of sixteen slopes that does, or all their
/// corners, of which none does.
pub(crate) fn start<F: Floats>(floats: &F, model: &Model) -> Result<Corner, [Corner; 16]>
    ensures ok { IfOk result (λ c. IsStart (F.balance floats.now) c) }
    ensures a_level { IfOk result (λ c. IsLevel c.a) }
    ensures f_level { IfOk result (λ c. IsLevel c.f) }
    ensures tried { IfErr result (λ tried. AreTried (F.balance floats.now) tried 16) }
{
    let number = model.slope();
    let likely = tried_at(floats, model, half_at(number));
    if qualifies(&likely) {
        return Ok(likely);
    }
    let mut tried = [likely; 16];
    for j in 0..16usize {
        let corner = tried_at(floats, model, half_at(j as u32));
        if qualifies(&corner) {
            return Ok(corner);
        }
        tried[j] = corner;
    }
    Err(tried)
}

/// Half of the slope of a number, in grid units.
fn half_at(number: u32) -> i64
    requires { number < 16 }
    ensures value { result ≡ half_of number }
    ensures half { IsHalf result }
{
    8192i64 * 2i64.pow(number)
}
