// Intervals of fractions with ends in units of 2^-F.
ghost use Rattle.std.specs.Prelude.{◌≡◌, ◌↔◌, ◌≤◌, ◌≤ℤ◌, IsSome, IfSome};
ghost use Rattle.exact_fraction.specs.Bounds.{MagnitudeBelow};
ghost use Rattle.outward_interval.specs.Kept.{IsSpan};

/// Every end lies below this in magnitude.
const REACH: u128 = 1 << 126;

/// All fractions q with `lo ≤ q · 2^F ≤ hi`.
///
/// The ends are whole numbers of units 2^-F, both below 2^126 in magnitude; `F` is at most 60. The unit of
/// the quantity itself (mm, mm², ..) is said where a span is handed out.
#[derive(Clone, Copy, Debug, PartialEq, Eq)]
pub struct Span<const F: u32> {
    pub(crate) lo: i128,
    pub(crate) hi: i128,
    ghost ordered: { lo ≤ℤ hi },
    ghost low: { MagnitudeBelow 126 lo },
    ghost high: { MagnitudeBelow 126 hi },
    ghost scale: { F ≤ 60 },
}

impl<const F: u32> Span<F> {
    /// The span of these ends: Some exactly where `lo` is at most `hi`, both are below 2^126 in magnitude,
    /// and `F` is at most 60.
    pub fn new(lo: i128, hi: i128) -> Option<Span<F>>
        ensures some { IsSome result ↔ IsSpan F lo hi }
        ensures ends { IfSome result (λ span. (span.lo ≡ lo) × (span.hi ≡ hi)) }
    {
        if lo <= hi && lo.unsigned_abs() < REACH && hi.unsigned_abs() < REACH && F <= 60 {
            Some(Span { lo, hi })
        } else {
            None
        }
    }

    /// The lower end, in units of 2^-F.
    pub fn lo(&self) -> i128
        ensures { result ≡ self.now.lo }
    {
        self.lo
    }

    /// The upper end, in units of 2^-F.
    pub fn hi(&self) -> i128
        ensures { result ≡ self.now.hi }
    {
        self.hi
    }
}
