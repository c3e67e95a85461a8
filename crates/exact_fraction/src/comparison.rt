// The order of two fractions.
ghost use Rattle.std.specs.Prelude.{◌≡◌, ◌*ℤ◌};
ghost use Rattle.std.specs.Ordering.{int_cmp};
ghost use Rattle.exact_fraction.specs.Bounds.{IsRatio};
ghost use Rattle.exact_fraction.specs.Fraction.{fraction_of, IsOrderOf};

use crate::Ratio;
use std::cmp::Ordering;

/// The order of the fractions that two ratios are, whatever their terms: 1/2 and 2/4 are `Equal`.
pub fn cmp_frac(a: &Ratio, b: &Ratio) -> Ordering
    ensures order { IsOrderOf (fraction_of a.now) (fraction_of b.now) result }
    ensures cross_products { result ≡ int_cmp (a.now.num *ℤ b.now.den) (b.now.num *ℤ a.now.den) }
{
    product(a.num(), b.den()).cmp(&product(b.num(), a.den()))
}

// num · den, below 2^126 in magnitude.
fn product(num: i128, den: i128) -> i128
    requires { IsRatio num den }
    ensures { result ≡ num *ℤ den }
{
    num * den
}

#[cfg(test)]
mod tests {
    use super::*;

    #[test]
    fn orders_fractions(rt: HostRuntime) {
        let cases = [
            ((1, 2), (2, 4), Ordering::Equal),
            ((0, 1), (0, 7), Ordering::Equal),
            ((1, 3), (2, 7), Ordering::Greater),
            ((-1, 3), (-1, 2), Ordering::Greater),
            ((-1, 2), (1, 3), Ordering::Less),
            ((1, 68719476736), (1, 68719476735), Ordering::Less),
            (
                (1237940039285380274899124223, 1),
                (1237940039285380274899124222, 1),
                Ordering::Greater,
            ),
            (
                (1237940039285380274899124223, 68719476736),
                (1237940039285380274899124223, 68719476735),
                Ordering::Less,
            ),
            (
                (-1237940039285380274899124223, 68719476735),
                (1237940039285380274899124223, 68719476736),
                Ordering::Less,
            ),
        ];
        for ((num, den), (other_num, other_den), want) in cases {
            let a = Ratio::new(num, den).expect(&rt, "within bounds");
            let b = Ratio::new(other_num, other_den).expect(&rt, "within bounds");
            assert_eq!(rt;
                cmp_frac(&a, &b),
                want,
                "at {num} / {den} and {other_num} / {other_den}"
            );
        }
    }
}
