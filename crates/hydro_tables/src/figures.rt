// Figures that are formed from others.
ghost use Rattle.std.specs.Prelude.{◌≡◌, ◌*◌, ◌^◌, ◌⊎◌, ◌↔◌, pos, IfSome, IsNone, IsTrue};
ghost use Rattle.exact_algebra.proofs.Fraction.{Fraction, ◌⊕◌, ◌⊗◌, ◌⊖◌, inverse};
ghost use Rattle.exact_algebra.proofs.Span.{ContainsFraction};
ghost use Rattle.exact_algebra.proofs.Whole.{whole};
ghost use Rattle.flux_moments.specs.Limits.{EndsAtMost};
ghost use Rattle.outward_interval.specs.Ends.{EndsBelow};
ghost use Rattle.outward_interval.specs.Widths.{IsNear, IsNarrow};
ghost use Rattle.hydro_tables.specs.Bounds.{AreLidEnds};
ghost use Rattle.hydro_tables.specs.Extent.{product_width};
ghost use Rattle.hydro_tables.specs.Figures.{◌over◌};
ghost use Rattle.hydro_tables.specs.Widths.{IsWithin, width_of};

use flux_moments::LidSums;
use hull_model::Water;
use outward_interval::Span;

/// Below this, an integral times a length of 2^20 mm fits.
const ROOM: u128 = 1 << 83;

/// mm³ in a m³, times kg in a t: a volume times a density over this is a mass in t.
const VOLUME_IN_TONNES: i128 = 1_000_000_000_000;

/// An area in mm² times a density over this is a mass in t/cm: mm² in a m², kg in a t, cm in a m.
const AREA_IN_TONNES: i128 = 100_000_000_000;

/// An inertia in mm⁴ times a density over this and a length in mm is a moment in t·m/cm: a mass in t, over the cm in a m.
const MOMENT_IN_TONNES: i128 = 100_000_000_000_000;

/// The integral of the square of the distance to a lid's transverse axis: that through its centre, where that is known,
/// and else that through x = 0.
///
/// About the centre it is `sxx - lcf · sx`, since the centre times the area is `sx`; this is narrower than by `lcf² · area`.
pub(crate) fn longitudinal(lid: &LidSums, lcf: &Option<Span<20>>) -> Span<20>
    requires lid { AreLidEnds lid.now }
    requires lcf { IfSome lcf.now (λ s. EndsAtMost (2 ^ 40) s.lo s.hi) }
    ensures contains { IfSome lcf.now (λ s. (x xx c : Fraction) → ContainsFraction 20 lid.now.sx.lo lid.now.sx.hi x → ContainsFraction 20 lid.now.sxx.lo lid.now.sxx.hi xx → ContainsFraction 20 s.lo s.hi c → ContainsFraction 20 result.lo result.hi (xx ⊖ c ⊗ x)) }
    ensures ends { EndsBelow 115 result.lo result.hi }
    ensures narrow { IfSome lcf.now (λ s. (m n w v y : Fraction) → IsNear 20 m s.lo s.hi → IsNear 20 n lid.now.sx.lo lid.now.sx.hi → IsNarrow 20 w s.lo s.hi → IsNarrow 20 v lid.now.sx.lo lid.now.sx.hi → IsNarrow 20 y lid.now.sxx.lo lid.now.sxx.hi → IsNarrow 20 (y ⊕ product_width m n w v) result.lo result.hi) }
    ensures none { IsNone lcf.now → result ≡ lid.now.sxx }
{
    match lcf {
        Some(lcf) => lid.sxx - product(*lcf, lid.sx),
        None => lid.sxx,
    }
}

// The product of a length and an integral. An integral that is too great for 128 bits is taken to 2^-10 mm³.
fn product(length: Span<20>, sx: Span<20>) -> Span<20>
    requires length { EndsAtMost (2 ^ 40) length.lo length.hi }
    requires sx { EndsBelow 93 sx.lo sx.hi }
    ensures contains { (c x : Fraction) → ContainsFraction 20 length.lo length.hi c → ContainsFraction 20 sx.lo sx.hi x → ContainsFraction 20 result.lo result.hi (c ⊗ x) }
    ensures ends { EndsAtMost (2 ^ 114) result.lo result.hi }
    ensures narrow { (m n w v : Fraction) → IsNear 20 m length.lo length.hi → IsNear 20 n sx.lo sx.hi → IsNarrow 20 w length.lo length.hi → IsNarrow 20 v sx.lo sx.hi → IsNarrow 20 (product_width m n w v) result.lo result.hi }
{
    if has_room(sx) {
        return length.scaled_by(sx);
    }
    let coarse: Span<10> = sx.rescale();
    length.scaled_by(coarse)
}

fn has_room(sx: Span<20>) -> bool
    ensures { IsTrue result ↔ EndsBelow 83 sx.lo sx.hi }
{
    sx.lo().unsigned_abs() < ROOM && sx.hi().unsigned_abs() < ROOM
}

/// The mass of a volume of water, in t.
pub(crate) fn displacement_of(volume: Span<20>, water: &Water) -> Span<20>
    requires { EndsBelow 96 volume.lo volume.hi }
    ensures contains { (v : Fraction) → ContainsFraction 20 volume.lo volume.hi v → ContainsFraction 20 result.lo result.hi (v ⊗ whole (pos water.now.density) ⊗ inverse (whole (pos (10 ^ 12)))) }
    ensures ends { EndsBelow 96 result.lo result.hi }
    ensures narrow { IsWithin (width_of volume ⊗ (whole (pos water.now.density) over whole (pos (10 ^ 12)))) result }
{
    volume
        .times_whole(i128::from(water.density))
        .over_whole(VOLUME_IN_TONNES)
}

/// The mass that sinks a ship with a waterplane of this area by 1 cm, in t.
pub(crate) fn tpc_of(area: Span<20>, water: &Water) -> Span<20>
    requires { EndsBelow 96 area.lo area.hi }
    ensures contains { (a : Fraction) → ContainsFraction 20 area.lo area.hi a → ContainsFraction 20 result.lo result.hi (a ⊗ whole (pos water.now.density) ⊗ inverse (whole (pos (10 ^ 11)))) }
    ensures ends { EndsBelow 96 result.lo result.hi }
    ensures narrow { IsWithin (width_of area ⊗ (whole (pos water.now.density) over whole (pos (10 ^ 11)))) result }
{
    area.times_whole(i128::from(water.density))
        .over_whole(AREA_IN_TONNES)
}

/// The moment that changes the trim by 1 cm, in t·m, where the metacentre is known.
///
/// The displacement times BML is the density times the lid's inertia: the volume cancels, so it isn't taken twice.
pub(crate) fn mct_of(inertia: Span<20>, bml: &Option<Span<20>>, water: &Water) -> Option<Span<20>>
    requires { EndsBelow 115 inertia.lo inertia.hi }
    ensures none { IsNone result ↔ IsNone bml.now }
    ensures contains { IfSome result (λ s. (i : Fraction) → ContainsFraction 20 inertia.lo inertia.hi i → ContainsFraction 20 s.lo s.hi (i ⊗ whole (pos water.now.density) ⊗ inverse (whole (pos (10 ^ 14 * water.now.length_bp))))) }
    ensures ends { IfSome result (λ s. EndsBelow 96 s.lo s.hi) }
    ensures narrow { IfSome result (λ s. IsWithin (width_of inertia ⊗ (whole (pos water.now.density) over whole (pos (10 ^ 14 * water.now.length_bp)))) s) }
{
    match bml {
        Some(_) => {
            let divisor = MOMENT_IN_TONNES * i128::from(water.length_bp);
            let moment = inertia.times_whole(i128::from(water.density));
            Some(moment.over_whole(divisor))
        }
        None => None,
    }
}

/// The sum, where both are known.
pub(crate) fn sum_of(one: &Option<Span<20>>, other: &Option<Span<20>>) -> Option<Span<20>>
    requires one { IfSome one.now (λ s. EndsAtMost (2 ^ 94) s.lo s.hi) }
    requires other { IfSome other.now (λ s. EndsAtMost (2 ^ 94) s.lo s.hi) }
    ensures none { IsNone result ↔ (IsNone one.now ⊎ IsNone other.now) }
    ensures contains { IfSome result (λ s. (x y : Fraction) → IfSome one.now (λ a. ContainsFraction 20 a.lo a.hi x) → IfSome other.now (λ b. ContainsFraction 20 b.lo b.hi y) → ContainsFraction 20 s.lo s.hi (x ⊕ y)) }
    ensures ends { IfSome result (λ s. EndsBelow 96 s.lo s.hi) }
    ensures narrow { IfSome one.now (λ a. IfSome other.now (λ b. IfSome result (λ s. IsWithin (width_of a ⊕ width_of b) s))) }
{
    match (one, other) {
        (Some(one), Some(other)) => Some(*one + *other),
        _ => None,
    }
}
