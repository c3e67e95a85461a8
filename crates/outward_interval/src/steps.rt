// Sums, differences and the lesser and the greater of whole numbers, one step at a time.
ghost use Rattle.std.specs.Prelude.{◌≡◌, ℤ, ◌+ℤ◌, ◌-ℤ◌, ◌≤ℤ◌};
ghost use Rattle.std.specs.Int.{int_min, int_max};
ghost use Rattle.exact_fraction.specs.Bounds.{MagnitudeBelow};

pub(crate) fn sum(a: i128, b: i128) -> i128
    requires { MagnitudeBelow 126 (a +ℤ b) }
    ensures value { result ≡ a +ℤ b }
    ensures size { MagnitudeBelow 126 result }
{
    a + b
}

pub(crate) fn difference(a: i128, b: i128) -> i128
    requires { MagnitudeBelow 126 (a -ℤ b) }
    ensures value { result ≡ a -ℤ b }
    ensures size { MagnitudeBelow 126 result }
{
    a - b
}

pub(crate) fn lesser(a: i128, b: i128) -> i128
    ensures value { result ≡ int_min a b }
    ensures first { result ≤ℤ a }
    ensures second { result ≤ℤ b }
    ensures size { MagnitudeBelow 126 a → MagnitudeBelow 126 b → MagnitudeBelow 126 result }
{
    a.min(b)
}

pub(crate) fn greater(a: i128, b: i128) -> i128
    ensures value { result ≡ int_max a b }
    ensures first { a ≤ℤ result }
    ensures second { b ≤ℤ result }
    ensures size { MagnitudeBelow 126 a → MagnitudeBelow 126 b → MagnitudeBelow 126 result }
{
    a.max(b)
}
