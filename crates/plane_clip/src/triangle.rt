// The means over the wet part of a triangle, for all corner depths within spans.
ghost use Rattle.std.specs.Prelude.{◌≡◌, ◌≤◌, ◌≤ℤ◌, pos, [], ◌∷◌, true, false};
ghost use Rattle.std.specs.List.{AllByRecursion};
ghost use Rattle.exact_fraction.specs.Bounds.{MagnitudeBelow};
ghost use Rattle.outward_interval.specs.Ends.{EndsBelow};
ghost use Rattle.hull_model.specs.WetMean.{wet_share, wet_depth};
ghost use Rattle.plane_clip.specs.Rounded.{Near, SharesOrdered, share_ends, depth_ends, AreEndsOf, AreEachEnds, corners_of, pairs_of, weighted_of};
ghost use Rattle.plane_clip.specs.Enclosure.{EnclosesMean, IsNoWider, Each, corner_means, pair_means, weighted_means};

use crate::depths::Depths;
use crate::means::{depths_at, means_at};
use crate::shares::Shares;
use outward_interval::Span;

/// Means over the wet part of a triangle: the part where the depth, which is linear over it, is above 0.
///
/// Each is over the whole triangle and counts on the wet part alone. λ_k is the coordinate that is 1 at corner k
/// and 0 at the two others.
#[derive(Clone, Copy, Debug, PartialEq, Eq)]
pub struct WetShare {
    /// The share of the triangle that is wet: the mean of 1.
    pub share: Span<40>,
    /// The means of λ_0, λ_1, λ_2.
    pub corner: [Span<40>; 3],
    /// The means of λ_i·λ_j, in the order 00, 01, 02, 11, 12, 22.
    pub pair: [Span<40>; 6],
    /// The mean of the depth, in mm.
    pub depth: Span<20>,
    /// The means of λ_k times the depth, in mm.
    pub weighted: [Span<20>; 3],
}

/// The means of the depth over the wet part of a triangle, in mm, as in [`WetShare`].
#[derive(Clone, Copy, Debug, PartialEq, Eq)]
pub struct WetDepths {
    pub depth: Span<20>,
    pub weighted: [Span<20>; 3],
}

/// EnclosesMean the means over the wet part for all corner depths within the spans, which lie below 2^21 mm in
/// magnitude.
///
/// Each field is no wider than its exact mean at the greatest depths less that at the least, plus 2^-36 for
/// `share`, `corner` and `pair`, and 2^-17 mm for `depth` and `weighted`. The ends of `depth` are below 2^42 units in
/// magnitude, all others below 2^41.
pub fn wet(h: [Span<20>; 3]) -> WetShare
    requires near { AllByRecursion (λ s. EndsBelow 41 s.lo s.hi) h }
    ensures share { EnclosesMean 40 h result.share wet_share }
    ensures corner { Each (EnclosesMean 40 h) result.corner corner_means }
    ensures pair { Each (EnclosesMean 40 h) result.pair pair_means }
    ensures depth { EnclosesMean 20 h result.depth wet_depth }
    ensures weighted { Each (EnclosesMean 20 h) result.weighted weighted_means }
    ensures share_width { IsNoWider 40 16 h result.share wet_share }
    ensures corner_width { Each (IsNoWider 40 16 h) result.corner corner_means }
    ensures pair_width { Each (IsNoWider 40 16 h) result.pair pair_means }
    ensures depth_width { IsNoWider 20 8 h result.depth wet_depth }
    ensures weighted_width { Each (IsNoWider 20 8 h) result.weighted weighted_means }
    ensures share_bounded { EndsBelow 41 result.share.lo result.share.hi }
    ensures corner_bounded { AllByRecursion (λ s. EndsBelow 41 s.lo s.hi) result.corner }
    ensures pair_bounded { AllByRecursion (λ s. EndsBelow 41 s.lo s.hi) result.pair }
    ensures depth_bounded { EndsBelow 42 result.depth.lo result.depth.hi }
    ensures weighted_bounded { AllByRecursion (λ s. EndsBelow 41 s.lo s.hi) result.weighted }
{
    wet_of(h[0], h[1], h[2])
}

/// EnclosesMean the means of the depth alone, as [`wet`] does, at less cost.
pub fn wet_depths(h: [Span<20>; 3]) -> WetDepths
    requires near { AllByRecursion (λ s. EndsBelow 41 s.lo s.hi) h }
    ensures depth { EnclosesMean 20 h result.depth wet_depth }
    ensures weighted { Each (EnclosesMean 20 h) result.weighted weighted_means }
    ensures depth_width { IsNoWider 20 8 h result.depth wet_depth }
    ensures weighted_width { Each (IsNoWider 20 8 h) result.weighted weighted_means }
    ensures depth_bounded { EndsBelow 42 result.depth.lo result.depth.hi }
    ensures weighted_bounded { AllByRecursion (λ s. EndsBelow 41 s.lo s.hi) result.weighted }
{
    wet_depths_of(h[0], h[1], h[2])
}

fn wet_of(x: Span<20>, y: Span<20>, z: Span<20>) -> WetShare
    requires near { EndsBelow 41 x.lo x.hi × EndsBelow 41 y.lo y.hi × EndsBelow 41 z.lo z.hi }
    ensures share { AreEndsOf 40 result.share (pos (share_ends false x.lo y.lo z.lo).share) (pos (share_ends true x.hi y.hi z.hi).share) }
    ensures corner { AreEachEnds 40 result.corner (corners_of (share_ends false x.lo y.lo z.lo)) (corners_of (share_ends true x.hi y.hi z.hi)) }
    ensures pair { AreEachEnds 40 result.pair (pairs_of (share_ends false x.lo y.lo z.lo)) (pairs_of (share_ends true x.hi y.hi z.hi)) }
    ensures depth { AreEndsOf 20 result.depth (depth_ends false x.lo y.lo z.lo).depth (depth_ends true x.hi y.hi z.hi).depth }
    ensures weighted { AreEachEnds 20 result.weighted (weighted_of (depth_ends false x.lo y.lo z.lo)) (weighted_of (depth_ends true x.hi y.hi z.hi)) }
    ensures share_bounded { EndsBelow 41 result.share.lo result.share.hi }
    ensures corner_bounded { AllByRecursion (λ s. EndsBelow 41 s.lo s.hi) result.corner }
    ensures pair_bounded { AllByRecursion (λ s. EndsBelow 41 s.lo s.hi) result.pair }
    ensures depth_bounded { EndsBelow 42 result.depth.lo result.depth.hi }
    ensures weighted_bounded { AllByRecursion (λ s. EndsBelow 41 s.lo s.hi) result.weighted }
{
    let low = means_at(lower(x), lower(y), lower(z), false);
    let high = means_at(upper(x), upper(y), upper(z), true);
    let shares = share_spans(low.shares, high.shares);
    let depths = depth_spans(low.depths, high.depths);
    let (corner, pair, weighted) = (shares.corner, shares.pair, depths.weighted);
    WetShare {
        share: shares.share,
        corner,
        pair,
        depth: depths.depth,
        weighted,
    }
}

fn wet_depths_of(x: Span<20>, y: Span<20>, z: Span<20>) -> WetDepths
    requires near { EndsBelow 41 x.lo x.hi × EndsBelow 41 y.lo y.hi × EndsBelow 41 z.lo z.hi }
    ensures depth { AreEndsOf 20 result.depth (depth_ends false x.lo y.lo z.lo).depth (depth_ends true x.hi y.hi z.hi).depth }
    ensures weighted { AreEachEnds 20 result.weighted (weighted_of (depth_ends false x.lo y.lo z.lo)) (weighted_of (depth_ends true x.hi y.hi z.hi)) }
    ensures depth_bounded { EndsBelow 42 result.depth.lo result.depth.hi }
    ensures weighted_bounded { AllByRecursion (λ s. EndsBelow 41 s.lo s.hi) result.weighted }
{
    let low = depths_at(lower(x), lower(y), lower(z), false);
    let high = depths_at(upper(x), upper(y), upper(z), true);
    depth_spans(low, high)
}

#[inline(always)]
fn lower(span: Span<20>) -> i64
    requires { EndsBelow 41 span.lo span.hi }
    ensures value { result ≡ span.lo }
    ensures near { Near result }
{
    span.lo() as i64
}

#[inline(always)]
fn upper(span: Span<20>) -> i64
    requires { EndsBelow 41 span.lo span.hi }
    ensures value { result ≡ span.hi }
    ensures near { Near result }
{
    span.hi() as i64
}

#[derive(Clone, Copy)]
struct ShareSpans {
    share: Span<40>,
    corner: [Span<40>; 3],
    pair: [Span<40>; 6],
}

#[inline(always)]
fn share_spans(low: Shares, high: Shares) -> ShareSpans
    requires { SharesOrdered low high }
    ensures share { AreEndsOf 40 result.share (pos low.share) (pos high.share) }
    ensures corner { AreEachEnds 40 result.corner (corners_of low) (corners_of high) }
    ensures pair { AreEachEnds 40 result.pair (pairs_of low) (pairs_of high) }
{
    ShareSpans {
        share: share_span(low.share, high.share),
        corner: [
            share_span(low.c0, high.c0),
            share_span(low.c1, high.c1),
            share_span(low.c2, high.c2),
        ],
        pair: [
            share_span(low.p00, high.p00),
            share_span(low.p01, high.p01),
            share_span(low.p02, high.p02),
            share_span(low.p11, high.p11),
            share_span(low.p12, high.p12),
            share_span(low.p22, high.p22),
        ],
    }
}

#[inline(always)]
fn share_span(lo: u64, hi: u64) -> Span<40>
    requires { lo ≤ hi }
    ensures { AreEndsOf 40 result (pos lo) (pos hi) }
{
    match Span::new(i128::from(lo), i128::from(hi)) {
        Some(span) => span,
        None => unreachable!(),
    }
}

#[inline(always)]
fn depth_spans(low: Depths, high: Depths) -> WetDepths
    requires { (low.depth ≤ℤ high.depth) × (low.first ≤ℤ high.first) × (low.second ≤ℤ high.second) × (low.third ≤ℤ high.third) }
    ensures depth { AreEndsOf 20 result.depth low.depth high.depth }
    ensures weighted { AreEachEnds 20 result.weighted (low.first ∷ low.second ∷ low.third ∷ []) (high.first ∷ high.second ∷ high.third ∷ []) }
{
    WetDepths {
        depth: depth_span(low.depth, high.depth),
        weighted: [
            depth_span(low.first, high.first),
            depth_span(low.second, high.second),
            depth_span(low.third, high.third),
        ],
    }
}

#[inline(always)]
fn depth_span(lo: i64, hi: i64) -> Span<20>
    requires { lo ≤ℤ hi }
    ensures { AreEndsOf 20 result lo hi }
{
    match Span::new(i128::from(lo), i128::from(hi)) {
        Some(span) => span,
        None => unreachable!(),
    }
}
