// Draft brackets.
ghost use Rattle.std.specs.Prelude.{◌≡◌, ◌↔◌, ◌≤◌, ◌^◌, true, false, pos, ◌+ℤ◌, ◌*ℤ◌, ◌≤ℤ◌, ◌<ℤ◌, unsigned_abs, IsErr, IfOk, IfErr};
ghost use Rattle.std.specs.Ordering.{MatchOrdering};
ghost use Rattle.exact_algebra.proofs.Fraction.{◌⊗◌, ◌≺◌};
ghost use Rattle.exact_algebra.proofs.Whole.{whole};
ghost use Rattle.exact_fraction.specs.Bounds.{MagnitudeBelow};
ghost use Rattle.exact_fraction.specs.Fraction.{fraction_of};
ghost use Rattle.angle_bounds.specs.declared.bracket.Bracket.{Bracket};
ghost use Rattle.draft_bracket.specs.GridLevels as levels;
ghost use Rattle.draft_bracket.specs.DraftBracket.{OfHulls, IsNeed, IsOfDegree, six_of, IsTooHeavy, IsSharpBracket};
ghost use Rattle.draft_bracket.specs.Places.{IsPlace};

use crate::Guess;
use crate::crossing::crossing;
use crate::need::Need;
use crate::place::{End, Place};
use angle_bounds::{Bracket, Degree, bracket_of};
use exact_fraction::Ratio;
use hull_polyhedron::{Faces, six_volume};
use std::cmp::Ordering;

/// Two levels in grid units of 1/1024 mm: `d1` is at most `d2`, and neither is above 2^28 in magnitude.
#[derive(Clone, Copy, Debug, PartialEq, Eq)]
pub struct Drafts {
    pub d1: i64,
    pub d2: i64,
    ghost ordered: { d1 ≤ℤ d2 },
    ghost first_range: { unsigned_abs d1 ≤ 2 ^ 28 },
    ghost last_range: { unsigned_abs d2 ≤ 2 ^ 28 },
}

/// The need is more than the whole hull has: six times the hull's volume in mm³.
#[derive(Clone, Copy, Debug, PartialEq, Eq)]
pub struct TooHeavy {
    pub six: i128,
}

/// The sharp draft bracket of a degree, as [`float_in`] gives it for the bracket of `k`.
pub fn float_at(faces: &Faces, k: Degree, need: &Ratio) -> Result<Drafts, TooHeavy>
    requires { IsNeed need.now }
    ensures drafts { (bracket : Bracket) × IsOfDegree k.degrees bracket × IfOk result (λ d. OfHulls faces.now (IsSharpBracket faces.now bracket (fraction_of need.now) d.d1 d.d2)) }
    ensures too_heavy { OfHulls faces.now (λ hull. IsErr result ↔ IsTooHeavy hull (fraction_of need.now)) }
    ensures six { IfErr result (λ e. OfHulls faces.now (λ hull. e.six ≡ six_of hull)) }
{
    let bracket = bracket_of(k);
    float_in(faces, &bracket, need)
}

/// The levels between which a hull of the volume `need` floats, at every direction of a bracket. The faces are the
/// hull's boundary; `need` is in mm³, above 0 and below 2^67, with a denominator of at most 2000.
///
/// At `d1` the volume is at most `need`, at `d2` at least `need`, at every direction of the bracket. They are sharp: either
/// they are one level, where the volume is `need` exactly; or one grid unit above `d1` the volume is above `need` but for the
/// width that its enclosure may have, or that level is past the range; and one grid unit below `d2` it is below `need` in the
/// same sense. The range is from `-1024 · half_breadth` to `1024 · (high_z + half_breadth)`. TooHeavy comes exactly where six
/// times `need` is above six times the hull's volume, which it carries.
pub fn float_in(faces: &Faces, bracket: &Bracket, need: &Ratio) -> Result<Drafts, TooHeavy>
    requires { IsNeed need.now }
    ensures drafts { IfOk result (λ d. OfHulls faces.now (IsSharpBracket faces.now bracket.now (fraction_of need.now) d.d1 d.d2)) }
    ensures too_heavy { OfHulls faces.now (λ hull. IsErr result ↔ IsTooHeavy hull (fraction_of need.now)) }
    ensures six { IfErr result (λ e. OfHulls faces.now (λ hull. e.six ≡ six_of hull)) }
{
    let mut guess = Guess::new();
    float_near(faces, bracket, need, &mut guess)
}

/// As [`float_in`], with a guess that is handed from one bracket to the next: it saves evaluations, and changes no promise.
pub fn float_near(
    faces: &Faces,
    bracket: &Bracket,
    need: &Ratio,
    guess: &mut Guess,
) -> Result<Drafts, TooHeavy>
    requires { IsNeed need.now }
    ensures drafts { IfOk result (λ d. OfHulls faces.now (IsSharpBracket faces.now bracket.now (fraction_of need.now) d.d1 d.d2)) }
    ensures too_heavy { OfHulls faces.now (λ hull. IsErr result ↔ IsTooHeavy hull (fraction_of need.now)) }
    ensures six { IfErr result (λ e. OfHulls faces.now (λ hull. e.six ≡ six_of hull)) }
{
    let six = six_volume(faces);
    match need_to_whole(need, six) {
        Ordering::Greater => Err(TooHeavy { six }),
        Ordering::Equal => {
            let top = top_of(faces);
            Ok(Drafts { d1: top, d2: top })
        }
        Ordering::Less => {
            let bottom = bottom_of(faces);
            let top = top_of(faces);
            guess.begin(bottom, top, six);
            Ok(search(faces, bracket, &Need::of(need), bottom, top, guess))
        }
    }
}

// The order of six times the need and six times the volume of the whole.
fn need_to_whole(need: &Ratio, six: i128) -> Ordering
    requires need { IsNeed need.now }
    requires six { MagnitudeBelow 78 six }
    ensures { MatchOrdering result (whole (pos 6) ⊗ fraction_of need.now ≺ whole six) (whole (pos 6) ⊗ fraction_of need.now ≡ whole six) (whole six ≺ whole (pos 6) ⊗ fraction_of need.now) }
{
    (6 * need.num()).cmp(&times(six, need.den()))
}

fn times(six: i128, den: i128) -> i128
    requires { MagnitudeBelow 126 (six *ℤ den) }
    ensures { result ≡ six *ℤ den }
{
    six * den
}

// The least level that is looked at: nothing of the hull lies below it.
fn bottom_of(faces: &Faces) -> i64
    ensures same { result ≡ levels.bottom_of faces.now }
    ensures range { unsigned_abs result ≤ 2 ^ 28 }
    ensures below { result <ℤ levels.top_of faces.now }
{
    -1024 * faces.half_breadth()
}

// The greatest: all of the hull lies below it.
fn top_of(faces: &Faces) -> i64
    ensures same { result ≡ levels.top_of faces.now }
    ensures range { unsigned_abs result ≤ 2 ^ 28 }
{
    1024 * (faces.high_z() + faces.half_breadth())
}

// The bracket, where the volume at the bottom is below the need, and that at the top above it.
fn search(
    faces: &Faces,
    bracket: &Bracket,
    need: &Need,
    bottom: i64,
    top: i64,
    guess: &mut Guess,
) -> Drafts
    requires bottom { bottom ≡ levels.bottom_of faces.now }
    requires top { top ≡ levels.top_of faces.now }
    requires order { bottom <ℤ top }
    requires bottom_range { unsigned_abs bottom ≤ 2 ^ 28 }
    requires top_range { unsigned_abs top ≤ 2 ^ 28 }
    requires at_bottom { IsPlace faces.now bracket.now (fraction_of need.now.ratio) bottom false false }
    requires at_top { IsPlace faces.now bracket.now (fraction_of need.now.ratio) top true true }
    ensures { OfHulls faces.now (IsSharpBracket faces.now bracket.now (fraction_of need.now.ratio) result.d1 result.d2) }
{
    let lowest = Place {
        level: bottom,
        is_over: false,
        reaches: false,
    };
    let highest = Place {
        level: top,
        is_over: true,
        reaches: true,
    };
    let (low, next) = crossing(faces, bracket, need, End::Upper, lowest, highest, guess);
    guess.found(low.level);
    if low.reaches {
        return Drafts {
            d1: low.level,
            d2: low.level,
        };
    }
    let (_, high) = upper_neighbours(faces, bracket, need, low, next, highest, guess);
    let (d1, d2) = (low.level, high.level);
    Drafts { d1, d2 }
}

// The neighbours on either side of the need by the lower end, where the first of two neighbours is short of it.
fn upper_neighbours(
    faces: &Faces,
    bracket: &Bracket,
    need: &Need,
    low: Place,
    next: Place,
    highest: Place,
    guess: &mut Guess,
) -> (Place, Place)
    requires next { next.level ≡ low.level +ℤ pos 1 }
    requires last { next.level ≤ℤ highest.level }
    requires low_range { unsigned_abs low.level ≤ 2 ^ 28 }
    requires next_range { unsigned_abs next.level ≤ 2 ^ 28 }
    requires highest_range { unsigned_abs highest.level ≤ 2 ^ 28 }
    requires at_low { IsPlace faces.now bracket.now (fraction_of need.now.ratio) low.level low.is_over low.reaches }
    requires at_next { IsPlace faces.now bracket.now (fraction_of need.now.ratio) next.level next.is_over next.reaches }
    requires at_highest { IsPlace faces.now bracket.now (fraction_of need.now.ratio) highest.level highest.is_over highest.reaches }
    requires short { low.reaches ≡ false }
    requires enough { highest.reaches ≡ true }
    ensures neighbours { result.1.level ≡ result.0.level +ℤ pos 1 }
    ensures from { low.level ≤ℤ result.0.level }
    ensures to { result.1.level ≤ℤ highest.level }
    ensures range { unsigned_abs result.1.level ≤ 2 ^ 28 }
    ensures order { low.level ≤ℤ result.1.level }
    ensures first { IsPlace faces.now bracket.now (fraction_of need.now.ratio) result.0.level result.0.is_over result.0.reaches }
    ensures last { IsPlace faces.now bracket.now (fraction_of need.now.ratio) result.1.level result.1.is_over result.1.reaches }
    ensures short { result.0.reaches ≡ false }
    ensures enough { result.1.reaches ≡ true }
{
    if next.reaches {
        return (low, next);
    }
    guess.turn_to(End::Lower);
    if next.level < highest.level {
        return crossing(faces, bracket, need, End::Lower, next, highest, guess);
    }
    crossing(faces, bracket, need, End::Lower, low, highest, guess)
}
