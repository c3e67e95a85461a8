// Parts of an edge, and products of two.
ghost use Rattle.std.specs.Prelude.{◌≡◌, ◌^◌, ◌≤◌, ◌≤ℤ◌, pos};
ghost use Rattle.exact_algebra.proofs.Fraction.{one, ◌⊗◌, ◌⊖◌};
ghost use Rattle.exact_algebra.proofs.Whole.{whole};
ghost use Rattle.hull_model.specs.Body.{IsWithin};
ghost use Rattle.plane_clip.specs.Ways.{IsOnWay, part_to, quotient_of};

/// A part n / d of an edge.
#[derive(Clone, Copy)]
pub(crate) struct Way {
    pub(crate) n: i128,
    pub(crate) d: i128,
    ghost part: { (pos 0 ≤ℤ n) × (n ≤ℤ d) },
    ghost whole: { (pos 1 ≤ℤ d) × (d ≤ℤ pos (2 ^ 20)) },
}

/// A part n / d of an area.
#[derive(Clone, Copy)]
pub(crate) struct Share {
    pub(crate) n: i128,
    pub(crate) d: i128,
    ghost part: { (pos 0 ≤ℤ n) × (n ≤ℤ d) },
    ghost whole: { (pos 1 ≤ℤ d) × (d ≤ℤ pos (2 ^ 40)) },
}

impl Way {
    /// From one x up to the place `at` on the way to another.
    pub(crate) fn of(from: i128, to: i128, at: i128) -> Way
        requires from { IsWithin (pos 524287) from }
        requires to { IsWithin (pos 524287) to }
        requires between { IsOnWay at from to }
        ensures { quotient_of result.n result.d ≡ part_to (whole from) (whole to) (whole at) }
    {
        if from > to {
            Way::new(from - at, from - to)
        } else {
            Way::new(at - from, to - from)
        }
    }

    fn new(n: i128, d: i128) -> Way
        requires part { (pos 0 ≤ℤ n) × (n ≤ℤ d) }
        requires whole { (pos 1 ≤ℤ d) × (d ≤ℤ pos (2 ^ 20)) }
        ensures { (result.n ≡ n) × (result.d ≡ d) }
    {
        Way { n, d }
    }

    /// The rest of the edge.
    pub(crate) fn rest(self) -> Way
        ensures { quotient_of result.n result.d ≡ one ⊖ quotient_of self.n self.d }
    {
        Way {
            n: self.d - self.n,
            d: self.d,
        }
    }

    /// The product of two parts.
    pub(crate) fn times(self, other: Way) -> Share
        ensures { quotient_of result.n result.d ≡ quotient_of self.n self.d ⊗ quotient_of other.n other.d }
    {
        Share {
            n: self.n * other.n,
            d: self.d * other.d,
        }
    }

    /// The part itself.
    pub(crate) fn share(self) -> Share
        ensures n { result.n ≡ self.n }
        ensures d { result.d ≡ self.d }
    {
        Share {
            n: self.n,
            d: self.d,
        }
    }
}

impl Share {
    /// So many thousandths.
    pub(crate) fn thousandths(n: u32) -> Share
        requires { n ≤ 1000 }
        ensures n { result.n ≡ pos n }
        ensures d { result.d ≡ pos 1000 }
    {
        Share {
            n: i128::from(n),
            d: 1000,
        }
    }
}
