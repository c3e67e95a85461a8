// Directions by whole numbers.
ghost use Rattle.std.specs.Prelude.{◌≡◌, ◌↔◌, ◌≤◌, ◌+◌, ◌*◌, ◌^◌, IsSome, IfSome, IsTrue};
ghost use Rattle.angle_bounds.specs.Directions.{IsTriple};

/// The greatest `r`.
const MOST_RADIUS: u64 = 1 << 49;

/// The direction from 0 to 90 degrees whose cosine is c/r and whose sine is s/r.
///
/// It keeps `c² + s² = r²` and `1 ≤ r ≤ 2^49`. The numbers need not be in lowest terms, and `==` compares them
/// as they are.
#[derive(Clone, Copy, Debug, PartialEq, Eq)]
pub struct Triple {
    pub c: u64,
    pub s: u64,
    pub r: u64,
    ghost direction: { IsTriple c s r },
}

impl Triple {
    /// The direction of these numbers: Some exactly where `c² + s² = r²` and `1 ≤ r ≤ 2^49`.
    pub fn new(c: u64, s: u64, r: u64) -> Option<Triple>
        ensures some { IsSome result ↔ IsTriple c s r }
        ensures same { IfSome result (λ t. (t.c ≡ c) × (t.s ≡ s) × (t.r ≡ r)) }
    {
        if is_triple(c, s, r) {
            Some(Triple { c, s, r })
        } else {
            None
        }
    }
}

fn is_triple(c: u64, s: u64, r: u64) -> bool
    ensures { IsTrue result ↔ IsTriple c s r }
{
    1 <= r && r <= MOST_RADIUS && is_right(c, s, r)
}

// Whether c² + s² = r². Neither leg is longer than r then, so no square leaves 128 bits.
fn is_right(c: u64, s: u64, r: u64) -> bool
    requires { r ≤ 2 ^ 49 }
    ensures { IsTrue result ↔ (c * c + s * s ≡ r * r) }
{
    if r < c || r < s {
        return false;
    }
    square(c) + square(s) == square(r)
}

fn square(n: u64) -> u128
    requires { n ≤ 2 ^ 49 }
    ensures value { result ≡ n * n }
    ensures bound { result ≤ 2 ^ 98 }
{
    u128::from(n) * u128::from(n)
}
