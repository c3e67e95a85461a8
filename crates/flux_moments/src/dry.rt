// Faces that add nothing to a sum over a boundary.
ghost use Rattle.std.specs.Prelude.{◌≡◌, ◌↔◌, ◌≤ℤ◌, IsTrue, pos};
ghost use Rattle.std.specs.List.{AllByRecursion};
ghost use Rattle.outward_interval.specs.declared.span.Span as span;

use outward_interval::Span;

/// The span of 0 alone.
pub(crate) fn nothing() -> Span<20>
    ensures { (result.lo ≡ pos 0) × (result.hi ≡ pos 0) }
{
    match Span::new(0, 0) {
        Some(span) => span,
        None => unreachable!(),
    }
}

/// Whether a span is that of 0 alone.
pub(crate) fn is_nothing(span: Span<40>) -> bool
    ensures { IsTrue result ↔ ((span.lo ≡ pos 0) × (span.hi ≡ pos 0)) }
{
    span.lo() == 0 && span.hi() == 0
}

/// Whether a triangle is dry at all depths of its corners within three spans: true exactly where none of the spans has
/// an upper end above 0.
pub fn are_dry(depths: &[Span<20>; 3]) -> bool
    ensures { IsTrue result ↔ AllByRecursion (λ s. s.hi ≤ℤ pos 0) depths.now }
{
    depths.iter().all(|depth| depth.hi() <= 0)
}
