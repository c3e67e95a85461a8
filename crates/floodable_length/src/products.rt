// Products and quotients of numbers that are small.
ghost use Rattle.std.specs.Prelude.{◌≡◌, ◌≤◌, ◌<◌, ◌^◌, pos, ◌*ℤ◌, ◌≤ℤ◌, unsigned_abs};
ghost use Rattle.exact_algebra.specs.Span.{IsFloor};

pub(crate) fn product(a: i64, b: i64) -> i64
    requires a { unsigned_abs a ≤ 2 ^ 30 }
    requires b { unsigned_abs b < 2 ^ 20 }
    ensures value { result ≡ a *ℤ b }
    ensures size { unsigned_abs result ≤ 2 ^ 50 }
{
    a * b
}

/// The floor of n / d.
pub(crate) fn floor_div(n: i64, d: i64) -> i64
    requires divisor { pos 1 ≤ℤ d }
    requires size { unsigned_abs n ≤ 524287 }
    ensures floor { IsFloor n (unsigned_abs d) result }
    ensures size { unsigned_abs result ≤ 524287 }
{
    n.div_euclid(d)
}
