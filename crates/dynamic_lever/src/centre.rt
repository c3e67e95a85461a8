// Where the centre of a loading lies, seen along the directions of a bracket.
ghost use Rattle.std.specs.Prelude.{◌≡◌, ◌^◌, ◌*◌, ◌≤◌, pos, unsigned_abs};
ghost use Rattle.exact_algebra.proofs.Fraction.{Fraction, ◌⊕◌, ◌⊗◌, inverse};
ghost use Rattle.exact_algebra.proofs.Span.{ContainsFraction};
ghost use Rattle.exact_algebra.proofs.Whole.{whole};
ghost use Rattle.hull_model.specs.Waterplane.{Waterplane};
ghost use Rattle.outward_interval.specs.Widths.{units, IsNarrow};
ghost use Rattle.flux_moments.specs.Limits.{EndsAtMost};
ghost use Rattle.flux_moments.specs.Planes.{HasDirectionIn};
ghost use Rattle.dynamic_lever.specs.Levers.{centre_side, centre_height, distance_of_centre};

use angle_bounds::Bracket;
use loading_sheet::Loading;
use outward_interval::Span;

/// How far the centre lies from the middle towards a side that is heeled to; `across` is the loading's moment about the
/// centreplane, towards port where this is that side.
pub(crate) fn side_of_centre(bracket: &Bracket, loading: &Loading, across: i64) -> Span<20>
    requires across { unsigned_abs across ≡ unsigned_abs loading.now.my }
    ensures contains { (plane : Waterplane) (side : Fraction) → HasDirectionIn bracket.now plane → whole across ≡ side ⊗ whole loading.now.my → ContainsFraction 20 result.lo result.hi (centre_side loading.now plane side) }
    ensures narrow { (e : Fraction) → IsNarrow 40 e bracket.now.c.lo bracket.now.c.hi → IsNarrow 40 e bracket.now.s.lo bracket.now.s.hi → IsNarrow 20 (distance_of_centre loading.now ⊗ e ⊕ units 20 4) result.lo result.hi }
    ensures ends { EndsAtMost (2 ^ 77) result.lo result.hi }
{
    weighed(bracket.s, bracket.c, loading, -across)
}

/// How high the centre lies above the plane through the base line.
pub(crate) fn height_of_centre(bracket: &Bracket, loading: &Loading, across: i64) -> Span<20>
    requires across { unsigned_abs across ≡ unsigned_abs loading.now.my }
    ensures contains { (plane : Waterplane) (side : Fraction) → HasDirectionIn bracket.now plane → whole across ≡ side ⊗ whole loading.now.my → ContainsFraction 20 result.lo result.hi (centre_height loading.now plane side) }
    ensures narrow { (e : Fraction) → IsNarrow 40 e bracket.now.c.lo bracket.now.c.hi → IsNarrow 40 e bracket.now.s.lo bracket.now.s.hi → IsNarrow 20 (distance_of_centre loading.now ⊗ e ⊕ units 20 4) result.lo result.hi }
    ensures ends { EndsAtMost (2 ^ 77) result.lo result.hi }
{
    weighed(bracket.c, bracket.s, loading, across)
}

/// The first number times the centre's height, and the second times its distance from the centreplane.
fn weighed(up: Span<40>, aside: Span<40>, loading: &Loading, across: i64) -> Span<20>
    requires up { EndsAtMost (2 ^ 40) up.lo up.hi }
    requires aside { EndsAtMost (2 ^ 40) aside.lo aside.hi }
    requires across { unsigned_abs across ≡ unsigned_abs loading.now.my }
    ensures contains { (x y : Fraction) → ContainsFraction 40 up.lo up.hi x → ContainsFraction 40 aside.lo aside.hi y → ContainsFraction 20 result.lo result.hi ((x ⊗ whole (pos loading.now.mz) ⊕ y ⊗ whole across) ⊗ inverse (whole (pos loading.now.mass))) }
    ensures narrow { (e : Fraction) → IsNarrow 40 e up.lo up.hi → IsNarrow 40 e aside.lo aside.hi → IsNarrow 20 (distance_of_centre loading.now ⊗ e ⊕ units 20 4) result.lo result.hi }
    ensures ends { EndsAtMost (2 ^ 77) result.lo result.hi }
{
    let height = times(up, i128::from(loading.mz));
    let distance = times(aside, i128::from(across));
    over_mass(height + distance, i128::from(loading.mass))
}

fn times(ratio: Span<40>, moment: i128) -> Span<40>
    requires ratio { EndsAtMost (2 ^ 40) ratio.lo ratio.hi }
    requires moment { unsigned_abs moment ≤ 2 ^ 55 }
    ensures contains { (x : Fraction) → ContainsFraction 40 ratio.lo ratio.hi x → ContainsFraction 40 result.lo result.hi (x ⊗ whole moment) }
    ensures narrow { (e : Fraction) → IsNarrow 40 e ratio.lo ratio.hi → IsNarrow 40 (e ⊗ whole (pos (unsigned_abs moment))) result.lo result.hi }
    ensures ends { EndsAtMost (2 ^ 95) result.lo result.hi }
{
    ratio.times_whole(moment)
}

fn over_mass(moment: Span<40>, mass: i128) -> Span<20>
    requires moment { EndsAtMost (2 ^ 96) moment.lo moment.hi }
    requires mass { 1 ≤ unsigned_abs mass }
    requires above { mass ≡ pos (unsigned_abs mass) }
    ensures contains { (x : Fraction) → ContainsFraction 40 moment.lo moment.hi x → ContainsFraction 20 result.lo result.hi (x ⊗ inverse (whole mass)) }
    ensures narrow { (w : Fraction) → IsNarrow 40 w moment.lo moment.hi → IsNarrow 20 (w ⊗ inverse (whole mass) ⊕ units 20 4) result.lo result.hi }
    ensures ends { EndsAtMost (2 ^ 77) result.lo result.hi }
{
    let coarse: Span<20> = moment.rescale();
    coarse.over_whole(mass)
}
