// One row of the hydrostatic table.
ghost use Rattle.std.specs.Prelude.{◌≡◌, ◌≤◌, ◌^◌, List, unsigned_abs};
ghost use Rattle.std.specs.List.{AllByRecursion};
ghost use Rattle.exact_algebra.proofs.Fraction.{Fraction};
ghost use Rattle.exact_algebra.proofs.Span.{ContainsFraction};
ghost use Rattle.flux_moments.specs.Planes.{IsIn};
ghost use Rattle.flux_moments.specs.Sizes.{IsLevelBox};
ghost use Rattle.hull_model.specs.declared.station.Station.{Station};
ghost use Rattle.hull_model.specs.Body.{IsHull};
ghost use Rattle.hull_model.specs.Faces.{IsFace};
ghost use Rattle.hull_model.specs.Waterplane.{upright};
ghost use Rattle.hull_polyhedron.specs.FacesOf.{AreFacesOf};
ghost use Rattle.hydro_tables.specs.Bounds.{AreWetEnds, AreLidEnds};
ghost use Rattle.hydro_tables.specs.Extent.{HasCentre, AreLimited, AreMeasured};
ghost use Rattle.hydro_tables.specs.Figures.{Integrals, integrals_of};
ghost use Rattle.hydro_tables.specs.Row.{HoldsFigures, AreEnclosed, IsAbsentExactly, AreBounded};
ghost use Rattle.hydro_tables.specs.Widths.{AreNarrow, widths_of};

use crate::centre::centre;
use crate::divisor::{above_nought, both, divisor_for, quotient, shown};
use crate::figures::{displacement_of, longitudinal, mct_of, sum_of, tpc_of};
use flux_moments::{LidSums, PlaneBox, Wet, lid, measure};
use hull_model::Water;
use hull_polyhedron::Faces;
use outward_interval::Span;

/// Grid units in a mm.
const GRID: i64 = 1024;

/// The least volume that is divided by, in units of 2^-20 mm³: 1 mm³.
const LEAST_VOLUME: i128 = 1 << 20;

/// No quotient by the volume reaches 2^74 mm.
const REACH: u32 = 74;

/// The hydrostatics of a hull that floats upright at one draft.
///
/// Lengths are in mm, `volume` in mm³, `area` in mm², `displacement` in t, `tpc` in t/cm, `mct` in t·m/cm. Each span
/// contains the exact figure. The ends lie below 2^96 in magnitude.
#[derive(Clone, Copy, Debug, PartialEq, Eq)]
pub struct HydroRow {
    /// The volume of the part of the hull below the waterplane.
    pub volume: Span<20>,
    /// Its mass of water.
    pub displacement: Span<20>,
    /// The x of the volume's centre.
    pub lcb: Option<Span<20>>,
    /// The height of the volume's centre above the base.
    pub kb: Option<Span<20>>,
    /// The area of the waterplane.
    pub area: Span<20>,
    /// The x of the waterplane's centre.
    pub lcf: Option<Span<20>>,
    /// The transverse metacentre above the centre of the volume.
    pub bmt: Option<Span<20>>,
    /// The longitudinal metacentre above the centre of the volume.
    pub bml: Option<Span<20>>,
    /// The transverse metacentre above the base.
    pub kmt: Option<Span<20>>,
    /// The mass that sinks the ship by 1 cm.
    pub tpc: Span<20>,
    /// The moment that changes the trim by 1 cm.
    pub mct: Option<Span<20>>,
}

/// The hydrostatics at a draft in mm above the base, up to 131071. The faces are the hull's boundary.
///
/// `lcb`, `kb`, `bmt` and `kmt` are None exactly where the volume's lower end is at most 0, `lcf` exactly where the
/// area's is, `bml` and `mct` exactly where either is. The volume's lower end counts as 0 where a quotient by it would
/// say nothing: where it is below 1 mm³, or a quotient by it could reach 2^74 mm. `lcf` is cut to 0 to 2^20 mm, since no
/// hull reaches farther.
///
/// The volume is no wider than W, eight times A times 2^-16 mm: A is half the sum of the faces' doubled areas seen from
/// the side and from above, and 2^17 mm². The area is no wider than B, half of the doubled areas seen from above times
/// 2^-32, with 2^-18 mm² for each face. A quotient is no wider than the bound of what is divided and its own magnitude
/// times the divisor's bound, over the divisor's lower end, and 2^-16: with X the last x, H the draft, the height and the
/// half-breadth together and Y the half-breadth, the bound is X W for `lcb`, H W for `kb`, X B for `lcf` and Y² B for
/// `bmt`. For `bml` it is 8 (X² B + 2 E X B + E² B + E t 2^-16), E the farthest end of `lcf` and t the area's upper end.
/// The other figures are no wider than their formulas over the row's own spans, and 2^-16.
pub fn hydro_row(faces: &Faces, water: &Water, draft: u32) -> HydroRow
    requires draft { draft ≤ 131071 }
    ensures holds { (stations : List Station) → IsHull stations → AreFacesOf stations faces.now → HoldsFigures (integrals_of stations draft) water.now result }
    ensures absent { IsAbsentExactly result }
    ensures ends { AreBounded result }
    ensures widths { (stations : List Station) → IsHull stations → AreFacesOf stations faces.now → AreNarrow (widths_of faces.now draft) (integrals_of stations draft) water.now result }
{
    let level = i64::from(draft) * GRID;
    let below = measure(faces, &level_plane(level));
    let lid = lid(faces, level, level);
    keep_limits(faces);
    row_of(&below, &lid, water)
}

// Its clause is what the widths stand on: that each face lies within its limits. It does nothing.
fn keep_limits(faces: &Faces)
    ensures { AllByRecursion IsFace faces.now.list }
{
    faces.list();
}

fn level_plane(level: i64) -> PlaneBox
    requires { unsigned_abs level ≤ 2 ^ 30 }
    ensures in_box { (at : Fraction) → ContainsFraction 10 level level at → IsIn result (upright at) }
    ensures level { IsLevelBox result level level }
{
    match PlaneBox::upright(level, level, level, level) {
        Some(planes) => planes,
        None => unreachable!(),
    }
}

fn row_of(below: &Wet, lid: &LidSums, water: &Water) -> HydroRow
    requires below { AreWetEnds below.now }
    requires lid { AreLidEnds lid.now }
    ensures holds { (i : Integrals) → HasCentre i.sx i.area → AreEnclosed below.now lid.now i → HoldsFigures i water.now result }
    ensures absent { IsAbsentExactly result }
    ensures ends { AreBounded result }
    ensures widths { (w i : Integrals) → AreLimited w i → AreEnclosed below.now lid.now i → AreMeasured w below.now lid.now → AreNarrow w i water.now result }
{
    let area = above_nought(lid.area);
    let lcf = centre(lid.sx, &area);
    let inertia = longitudinal(lid, &lcf);
    let moments = [below.mx, below.mu, lid.syy, inertia];
    let volume = divisor_for(below.volume, LEAST_VOLUME, &moments, REACH);
    let lcb = quotient(below.mx, &volume, REACH);
    let kb = quotient(below.mu, &volume, REACH);
    let bmt = quotient(lid.syy, &volume, REACH);
    let bml = quotient(inertia, &both(&volume, &area), REACH);
    let shown_volume = shown(below.volume, &volume);
    HydroRow {
        volume: shown_volume,
        displacement: displacement_of(shown_volume, water),
        lcb,
        kb,
        area: lid.area,
        lcf,
        bmt,
        bml,
        kmt: sum_of(&kb, &bmt),
        tpc: tpc_of(lid.area, water),
        mct: mct_of(inertia, &bml, water),
    }
}
