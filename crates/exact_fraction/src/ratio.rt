// Fractions with a bounded numerator and denominator.
ghost use Rattle.std.specs.Prelude.{◌≡◌, ◌↔◌, IsSome, IfSome};
ghost use Rattle.exact_fraction.specs.Bounds.{IsRatio};

/// Every numerator lies below this in magnitude.
const NUMERATOR_LIMIT: u128 = 1 << 90;

/// The greatest denominator.
const DENOMINATOR_MOST: i128 = 1 << 36;

/// The fraction `num / den`.
///
/// The numerator is below 2^90 in magnitude, and the denominator is from 1 to 2^36, so that a cross product of two
/// ratios is below 2^126. They need not be in lowest terms. A unit is said where a ratio is handed out.
// There is no `==`: by fields it would tell 1/2 from 2/4. Two ratios are one fraction where `cmp_frac` answers `Equal`.
#[derive(Clone, Copy, Debug)]
pub struct Ratio {
    num: i128,
    den: i128,
    ghost bounds: { IsRatio num den },
}

impl Ratio {
    /// The ratio of these two numbers: Some exactly where `num` is below 2^90 in magnitude and `den` is from 1 to 2^36.
    pub fn new(num: i128, den: i128) -> Option<Ratio>
        ensures some { IsSome result ↔ IsRatio num den }
        ensures parts { IfSome result (λ ratio. (ratio.num ≡ num) × (ratio.den ≡ den)) }
    {
        if num.unsigned_abs() < NUMERATOR_LIMIT && 1 <= den && den <= DENOMINATOR_MOST {
            Some(Ratio { num, den })
        } else {
            None
        }
    }

    /// The numerator, below 2^90 in magnitude.
    pub fn num(&self) -> i128
        ensures { result ≡ self.now.num }
    {
        self.num
    }

    /// The denominator, from 1 to 2^36.
    pub fn den(&self) -> i128
        ensures { result ≡ self.now.den }
    {
        self.den
    }
}

#[cfg(test)]
mod tests {
    use super::*;

    #[test]
    fn new_at_its_bounds(rt: HostRuntime) {
        let cases = [
            (1237940039285380274899124223, 1, true),
            (1237940039285380274899124224, 1, false),
            (-1237940039285380274899124223, 1, true),
            (-1237940039285380274899124224, 1, false),
            (0, 1, true),
            (7, 0, false),
            (7, -1, false),
            (7, 68719476736, true),
            (7, 68719476737, false),
        ];
        for (num, den, want) in cases {
            let ratio = Ratio::new(num, den);
            assert_eq!(rt; ratio.is_some(), want, "at {num} / {den}");
            if let Some(ratio) = ratio {
                assert_eq!(rt; (ratio.num(), ratio.den()), (num, den));
            }
        }
    }
}
