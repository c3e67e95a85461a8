// What a product has over two amounts.
ghost use Rattle.std.specs.Prelude.{◌≡◌, ℤ, pos, ◌+ℤ◌, ◌*ℤ◌, ◌≤ℤ◌};
ghost use Rattle.exact_algebra.proofs.Fraction.{Fraction, ◌⊖◌, ◌⊗◌};

use crate::Encloses;

/// What `x_end` times `volume` has over `moment` and `owed` together: `x_end · volume - moment - owed`.
///
/// `moment` and `owed` are in the unit of the product, as mm⁴ for an `x_end` in mm and a `volume` in mm³; so is the
/// answer, which contains the value for all that the four contain. The condition is that of its one product and its
/// two differences.
pub fn excess<E: Encloses>(x_end: E, volume: E, moment: E, owed: E) -> E
    requires product { E.can_mul x_end volume }
    requires less_moment { (p : E) → E.mul_gives x_end volume p → E.can_sub p moment }
    requires less_owed { (p d : E) → E.mul_gives x_end volume p → E.sub_gives p moment d → E.can_sub d owed }
    ensures contains { (x v m o : Fraction) → E.contains x_end x → E.contains volume v → E.contains moment m → E.contains owed o → E.contains result ((x ⊗ v ⊖ m) ⊖ o) }
    ensures width { (E.width result *ℤ pos E.one) ≤ℤ ((pos (E.size x_end) *ℤ E.width volume +ℤ pos (E.size volume) *ℤ E.width x_end) +ℤ ((pos 2 +ℤ E.width moment) +ℤ E.width owed) *ℤ pos E.one) }
{
    x_end * volume - moment - owed
}
