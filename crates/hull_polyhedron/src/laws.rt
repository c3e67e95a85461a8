// Theorems about the definitions, each the contract of a function with an empty body.
ghost use Rattle.hull_polyhedron.specs.ColumnMeans.{AreasAreKnownByVectors, ColumnsAreKnownByMeans, SeenPartsAreKnownByMeans};
ghost use Rattle.hull_polyhedron.specs.CentralLaw.{CentralLaw, CentralLawOfSolids, CentralLawOfTetrahedra};
ghost use Rattle.hull_polyhedron.specs.DamageBox.{CornersDecide};
ghost use Rattle.hull_polyhedron.specs.LidLaw.{LidLaw, LidLawOfSolids};
ghost use Rattle.hull_polyhedron.specs.RisingLaw.{MomentsRise, RisingLaw, WeightsAreKnown};
ghost use Rattle.hull_polyhedron.specs.Signs.{SignsAreRight};
ghost use Rattle.hull_polyhedron.specs.SlabLaw.{SlabLaw, FloodedLaw};
ghost use Rattle.hull_polyhedron.specs.StripLaw.{ColumnsOfStrips, LidsOfStrips, DryStrips, DryLids, WetStrips, DeepLids, StripsMakeUpTheHull, LidsMakeUpTheLid};

/// The signed faces of each tetrahedron of a hull point out of it, or its volume is 0.
pub fn signed_faces_point_outwards()
    ensures { SignsAreRight }
{}

/// At every waterplane the volume and the integrals of a tetrahedron's part under water are sums over
/// the columns of its faces, each pointing outwards.
pub fn tetrahedra_are_summed_by_columns()
    ensures { CentralLawOfTetrahedra }
{}

/// The same of any tetrahedra that are signed so that their faces point outwards, over any faces that, after
/// opposite ones cancel, are those outward faces; and so of what is seen of their lids at every level.
pub fn solids_are_summed_by_faces()
    ensures columns { CentralLawOfSolids }
    ensures lids { LidLawOfSolids }
{}

/// The central law: at every waterplane the submerged volume of a hull and its integrals are sums over
/// the columns of any faces that, after opposite ones cancel, are the signed faces of its tetrahedra.
pub fn hulls_are_summed_by_columns()
    ensures { CentralLaw }
{}

/// The law of the lid: at every level, the area of a hull's lid and the integrals over it are sums over the
/// wet parts of any faces that, after opposite ones cancel, are the signed faces of its tetrahedra. A deck in
/// the plane is part of the lid, and a bottom in the plane isn't.
pub fn lids_are_summed_by_faces()
    ensures { LidLaw }
{}

/// The law of slabs: at every waterplane, the volume and the integrals of the submerged part of a hull between
/// two places along the ship are sums over the columns of the parts of its faces there; and so what is left of
/// them where slabs flood.
pub fn slabs_are_summed_by_columns()
    ensures between { SlabLaw }
    ensures left { FloodedLaw }
{}

/// The law of strips: at every waterplane, the volume and the integrals of what is submerged of a strip are sums over
/// the columns of its faces alone, and those over its lid sums over their wet parts; faces in planes of constant x
/// aren't seen. Where no point of its two stations, nor its mirror image, lies under water nothing is submerged.
/// Where none lies above the waterplane the totals tell the volume and the integrals, and where all lie under it there
/// is no lid. The strips make up the hull.
pub fn strips_are_summed_by_columns()
    ensures columns { ColumnsOfStrips }
    ensures lids { LidsOfStrips }
    ensures dry { DryStrips }
    ensures dry_lids { DryLids }
    ensures wet { WetStrips }
    ensures deep_lids { DeepLids }
    ensures hull { StripsMakeUpTheHull }
    ensures hull_lids { LidsMakeUpTheLid }
{}

/// What a column is, and what is seen of a face's wet part, by the means over the wet part of a face and by
/// the face's area vector.
pub fn columns_are_known_by_means()
    ensures means { ColumnsAreKnownByMeans }
    ensures seen { SeenPartsAreKnownByMeans }
    ensures areas { AreasAreKnownByVectors }
{}

/// The law of rising levels: where slabs flood of which no two share more than a plane, what is left of the
/// integral of a weight that is linear along the ship and nowhere below 0 doesn't fall when the levels rise.
/// So the volume that is left rises, and its moments about the first and the last station.
pub fn what_is_left_rises_with_the_levels()
    ensures law { RisingLaw }
    ensures weights { WeightsAreKnown }
    ensures moments { MomentsRise }
{}

/// The signs of the residuals at two corners of a box of levels decide those at all four sides, at every upright
/// plane there.
pub fn corners_decide_the_sides()
    ensures { CornersDecide }
{}
