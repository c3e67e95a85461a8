// A cell of the cross curves.
ghost use Rattle.std.specs.Prelude.{◌≡◌, ◌↔◌, ◌*◌, ◌^◌, IsErr, IfOk, IfErr};
ghost use Rattle.exact_algebra.proofs.Fraction.{Fraction, ◌⊕◌, ◌⊗◌, inverse};
ghost use Rattle.exact_algebra.proofs.Span.{ContainsFraction};
ghost use Rattle.exact_fraction.specs.Fraction.{fraction_of};
ghost use Rattle.angle_bounds.specs.declared.bracket.Bracket.{Bracket};
ghost use Rattle.outward_interval.specs.Ends.{EndsBelow};
ghost use Rattle.outward_interval.specs.Widths.{unit_of, IsNarrow};
ghost use Rattle.flux_moments.specs.Limits.{EndsAtMost};
ghost use Rattle.draft_bracket.specs.DraftBracket.{OfHulls, IsNeed, IsOfDegree, six_of, IsTooHeavy, IsSharpBracket};
ghost use Rattle.cross_curves.specs.Kn.{HoldsKn, IsNarrowKn, IsBigNeed};

use angle_bounds::{Bracket, Degree, bracket_of};
use draft_bracket::{Drafts, Guess, TooHeavy, float_near};
use exact_fraction::Ratio;
use flux_moments::{PlaneBox, measure};
use hull_polyhedron::Faces;
use outward_interval::Span;

/// The levels between which a hull floats, and KN in mm at every level plane between them.
#[derive(Clone, Copy, Debug, PartialEq, Eq)]
pub struct KnCell {
    pub drafts: Drafts,
    pub kn: Span<20>,
}

/// KN at `k` degrees, as [`kn_near`] gives it for the bracket of `k`.
pub fn kn(faces: &Faces, k: Degree, need: &Ratio) -> Result<KnCell, TooHeavy>
    requires { IsNeed need.now }
    ensures cell { (bracket : Bracket) × IsOfDegree k.degrees bracket
        × IfOk result (λ cell. OfHulls faces.now (IsSharpBracket faces.now bracket (fraction_of need.now) cell.drafts.d1 cell.drafts.d2))
        × IfOk result (λ cell. OfHulls faces.now (HoldsKn bracket (fraction_of need.now) cell.drafts.d1 cell.drafts.d2 cell.kn.lo cell.kn.hi))
        × IfOk result (λ cell. IsNarrowKn faces.now bracket (fraction_of need.now) cell.drafts.d1 cell.drafts.d2 cell.kn.lo cell.kn.hi) }
    ensures ends { IsBigNeed (fraction_of need.now) → IfOk result (λ cell. EndsBelow 96 cell.kn.lo cell.kn.hi) }
    ensures too_heavy { OfHulls faces.now (λ hull. IsErr result ↔ IsTooHeavy hull (fraction_of need.now)) }
    ensures six { IfErr result (λ e. OfHulls faces.now (λ hull. e.six ≡ six_of hull)) }
{
    let bracket = bracket_of(k);
    let mut guess = Guess::new();
    kn_near(faces, &bracket, need, &mut guess)
}

/// The draft bracket of a hull of the volume `need` over a bracket of directions, and KN at every level plane of it.
///
/// KN is the distance of the buoyant force's line from the keel: the integral of the distance towards the low side over the
/// submerged body, by `need`. Its span is no wider than what [`measure`] gives for that integral, by `need`, and 2^-16 mm. The
/// ends lie below 2^96 in magnitude for a need of at least 500000 mm³. TooHeavy comes exactly as from `float_in`.
pub fn kn_near(
    faces: &Faces,
    bracket: &Bracket,
    need: &Ratio,
    guess: &mut Guess,
) -> Result<KnCell, TooHeavy>
    requires { IsNeed need.now }
    ensures drafts { IfOk result (λ cell. OfHulls faces.now (IsSharpBracket faces.now bracket.now (fraction_of need.now) cell.drafts.d1 cell.drafts.d2)) }
    ensures holds { IfOk result (λ cell. OfHulls faces.now (HoldsKn bracket.now (fraction_of need.now) cell.drafts.d1 cell.drafts.d2 cell.kn.lo cell.kn.hi)) }
    ensures narrow { IfOk result (λ cell. IsNarrowKn faces.now bracket.now (fraction_of need.now) cell.drafts.d1 cell.drafts.d2 cell.kn.lo cell.kn.hi) }
    ensures ends { IsBigNeed (fraction_of need.now) → IfOk result (λ cell. EndsBelow 96 cell.kn.lo cell.kn.hi) }
    ensures too_heavy { OfHulls faces.now (λ hull. IsErr result ↔ IsTooHeavy hull (fraction_of need.now)) }
    ensures six { IfErr result (λ e. OfHulls faces.now (λ hull. e.six ≡ six_of hull)) }
{
    match float_near(faces, bracket, need, guess) {
        Ok(drafts) => {
            let kn = kn_between(faces, bracket, need, &drafts);
            Ok(KnCell { drafts, kn })
        }
        Err(e) => Err(e),
    }
}

// KN over the level planes from one level to another.
fn kn_between(faces: &Faces, bracket: &Bracket, need: &Ratio, drafts: &Drafts) -> Span<20>
    requires { IsNeed need.now }
    ensures holds { OfHulls faces.now (HoldsKn bracket.now (fraction_of need.now) drafts.now.d1 drafts.now.d2 result.lo result.hi) }
    ensures narrow { IsNarrowKn faces.now bracket.now (fraction_of need.now) drafts.now.d1 drafts.now.d2 result.lo result.hi }
    ensures ends { IsBigNeed (fraction_of need.now) → EndsBelow 96 result.lo result.hi }
{
    match PlaneBox::level(*bracket, drafts.d1, drafts.d2) {
        Some(planes) => {
            let below = measure(faces, &planes);
            by_need(below.mv, need)
        }
        None => unreachable!(),
    }
}

// An integral by the need.
fn by_need(moment: Span<20>, need: &Ratio) -> Span<20>
    requires need { IsNeed need.now }
    requires ends { EndsAtMost (5 * 2 ^ 108) moment.lo moment.hi }
    ensures contains { (x : Fraction) → ContainsFraction 20 moment.lo moment.hi x → ContainsFraction 20 result.lo result.hi (x ⊗ inverse (fraction_of need.now)) }
    ensures narrow { (w : Fraction) → IsNarrow 20 w moment.lo moment.hi → IsNarrow 20 (w ⊗ inverse (fraction_of need.now) ⊕ unit_of 16) result.lo result.hi }
    ensures ends { IsBigNeed (fraction_of need.now) → EndsBelow 96 result.lo result.hi }
{
    moment.times_whole(need.den()).over_whole(need.num())
}
