// Rounding of whole numbers, downwards and upwards.
ghost use Rattle.std.specs.Prelude.{◌≡◌, ◌≤◌, ◌<◌, ◌*◌, ◌^◌, ℤ, pos, neg_ℤ, ◌*ℤ◌, ◌≤ℤ◌, unsigned_abs};
ghost use Rattle.exact_fraction.specs.Bounds.{MagnitudeBelow};
ghost use Rattle.exact_algebra.specs.Span.{IsFloor, IsCeiling};

/// 10^exponent.
pub(crate) fn power_of_ten(exponent: u32) -> u64
    requires { exponent ≤ 12 }
    ensures value { result ≡ 10 ^ exponent }
    ensures positive { 0 < result }
{
    10u64.pow(exponent)
}

/// n · 10^places.
pub(crate) fn scaled(n: i128, places: u32) -> i128
    requires places { places ≤ 9 }
    requires size { MagnitudeBelow 96 n }
    ensures value { result ≡ n *ℤ pos (10 ^ places) }
    ensures size { MagnitudeBelow 126 result }
{
    product(n, i128::from(power_of_ten(places)))
}

pub(crate) fn product(a: i128, b: i128) -> i128
    requires { MagnitudeBelow 126 (a *ℤ b) }
    ensures value { result ≡ a *ℤ b }
    ensures size { MagnitudeBelow 126 result }
{
    a * b
}

pub(crate) fn opposite(n: i128) -> i128
    requires { MagnitudeBelow 126 n }
    ensures value { result ≡ neg_ℤ n }
    ensures size { MagnitudeBelow 126 result }
{
    -n
}

/// The floor of n / 2^shift.
pub(crate) fn floor_shift(n: i128, shift: u32) -> i128
    requires { shift ≤ 60 }
    ensures floor { IsFloor n (2 ^ shift) result }
    ensures size { MagnitudeBelow 126 n → MagnitudeBelow 126 result }
{
    n >> shift
}

/// The ceiling of n / 2^shift.
pub(crate) fn ceiling_shift(n: i128, shift: u32) -> i128
    requires shift { shift ≤ 60 }
    requires size { MagnitudeBelow 126 n }
    ensures ceiling { IsCeiling n (2 ^ shift) result }
    ensures size { MagnitudeBelow 126 result }
{
    opposite(floor_shift(opposite(n), shift))
}

/// The floor of n / (2^shift · d).
pub(crate) fn floor_of(n: i128, shift: u32, d: u64) -> i128
    requires shift { shift ≤ 60 }
    requires divisor { 0 < d }
    requires size { MagnitudeBelow 126 n }
    ensures floor { IsFloor n (2 ^ shift * d) result }
    ensures size { MagnitudeBelow 126 result }
{
    floor_div(floor_shift(n, shift), i128::from(d))
}

/// The ceiling of n / (2^shift · d).
pub(crate) fn ceiling_of(n: i128, shift: u32, d: u64) -> i128
    requires shift { shift ≤ 60 }
    requires divisor { 0 < d }
    requires size { MagnitudeBelow 126 n }
    ensures ceiling { IsCeiling n (2 ^ shift * d) result }
{
    opposite(floor_of(opposite(n), shift, d))
}

/// n · 2^shift.
pub(crate) fn shifted(n: i128, shift: u32) -> i128
    requires shift { shift ≤ 60 }
    requires size { MagnitudeBelow 126 (n *ℤ pos (2 ^ shift)) }
    ensures value { result ≡ n *ℤ pos (2 ^ shift) }
    ensures size { MagnitudeBelow 126 result }
{
    product(n, 1i128 << shift)
}

/// The floor of n / d.
pub(crate) fn floor_div(n: i128, d: i128) -> i128
    requires divisor { pos 1 ≤ℤ d }
    requires size { MagnitudeBelow 126 n }
    ensures floor { IsFloor n (unsigned_abs d) result }
    ensures size { MagnitudeBelow 126 result }
{
    n.div_euclid(d)
}

/// The ceiling of n / d.
pub(crate) fn ceiling_div(n: i128, d: i128) -> i128
    requires divisor { pos 1 ≤ℤ d }
    requires size { MagnitudeBelow 126 n }
    ensures ceiling { IsCeiling n (unsigned_abs d) result }
    ensures size { MagnitudeBelow 126 result }
{
    opposite(floor_div(opposite(n), d))
}
