// Theorems about the definitions, each the contract of a function with an empty body.
ghost use Rattle.std.specs.Prelude.{ℕ};
ghost use Rattle.exact_algebra.proofs.Fraction.{one};
ghost use Rattle.exact_algebra.specs.Ring.{Operations, IsCommutativeRing};
ghost use Rattle.hull_model.specs.Boundary.{BalancedListsHaveEqualSums};
ghost use Rattle.hull_model.specs.Section.{NothingIsLeftToSplit};
ghost use Rattle.hull_model.specs.Submerged.{NoEdgeIsLeftToSplit};
ghost use Rattle.hull_model.specs.TriangleLaws.{ObeysLaws, RisesWithDepths, RisesByAtMost};
ghost use Rattle.hull_model.specs.WetMean.{linear_mean, product_mean, coordinate, wet_share, wet_corner, wet_pair, wet_depth, weighted_depth};
ghost use Rattle.hull_model.specs.Worked.{WorkedBargeHalf, WorkedBargeAtDeck, WorkedBargeAtBottom, WorkedWedge, WorkedHeeled, WorkedFlooded};

/// Three rounds of splits cut a triangle to its end: no piece has an edge that crosses the draft line.
pub fn nothing_is_left_to_split()
    ensures { NothingIsLeftToSplit }
{}

/// Four rounds of splits cut a tetrahedron to its end: no piece has an edge that crosses the waterplane.
pub fn no_edge_is_left_to_split()
    ensures { NoEdgeIsLeftToSplit }
{}

/// Over lists of faces that are the same after opposite ones cancel, each alternating function has the
/// same sum, in each commutative ring.
pub fn balanced_lists_have_equal_sums<T>()
    ensures { (R : Operations T) → IsCommutativeRing R → BalancedListsHaveEqualSums R }
{}

/// What the definitions give for the barge and the wedge, found by computing.
pub fn worked_values()
    ensures barge_half { WorkedBargeHalf }
    ensures barge_at_deck { WorkedBargeAtDeck }
    ensures barge_at_bottom { WorkedBargeAtBottom }
    ensures wedge { WorkedWedge }
    ensures heeled { WorkedHeeled }
    ensures flooded { WorkedFlooded }
{}

/// The law on triangles, for each mean over the wet part of a triangle: of 1, of a coordinate, of the product of
/// two, of the depth, and of the depth times a coordinate.
///
/// A split at any point of any edge leaves the sum of share times mean as it was, the order of the edges doesn't
/// matter, and the sum is known by the sides of the corners.
pub fn wet_means_obey_the_laws()
    ensures share { ObeysLaws (λ t. one) }
    ensures corner { (n : ℕ) → ObeysLaws (linear_mean (coordinate n)) }
    ensures pair { (n m : ℕ) → ObeysLaws (product_mean (coordinate n) (coordinate m)) }
    ensures depth { ObeysLaws (linear_mean (λ p. p.depth)) }
    ensures weighted { (n : ℕ) → ObeysLaws (product_mean (coordinate n) (λ p. p.depth)) }
{}

/// Each mean over the wet part rises with the depths of the corners.
pub fn wet_means_rise()
    ensures share { RisesWithDepths wet_share }
    ensures corner { (n : ℕ) → RisesWithDepths (wet_corner n) }
    ensures pair { (n m : ℕ) → RisesWithDepths (wet_pair n m) }
    ensures depth { RisesWithDepths wet_depth }
    ensures weighted { (n : ℕ) → RisesWithDepths (weighted_depth n) }
{}

/// The mean depth rises by at most the greatest rise of a corner's depth.
pub fn wet_depth_rises_by_at_most_the_greatest_rise()
    ensures { RisesByAtMost }
{}
