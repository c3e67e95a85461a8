// Marks and verdict of all six criteria.
ghost use Rattle.std.specs.Prelude.{◌≡◌, ◌≤◌, List, length};
ghost use Rattle.outward_interval.specs.Ends.{EndsBelow};
ghost use Rattle.hull_model.specs.declared.station.Station.{Station};
ghost use Rattle.hull_model.specs.declared.water.Water.{Water};
ghost use Rattle.hull_polyhedron.specs.declared.faces.Faces.{Faces};
ghost use Rattle.loading_sheet.specs.declared.loading.Loading.{Loading};
ghost use Rattle.intact_criteria.specs.C1 as C1;
ghost use Rattle.intact_criteria.specs.C2 as C2;
ghost use Rattle.intact_criteria.specs.C3 as C3;
ghost use Rattle.intact_criteria.specs.C4 as C4;
ghost use Rattle.intact_criteria.specs.C5 as C5;
ghost use Rattle.intact_criteria.specs.C6 as C6;
ghost use Rattle.intact_criteria.specs.Brackets.{ByBrackets};
ghost use Rattle.intact_criteria.specs.Bounds.{IsBoundedVerdict};
ghost use Rattle.intact_criteria.specs.Marks.{AreFindings, IsFoundOnBoth};
ghost use Rattle.intact_criteria.specs.Narrow.{IsAsNarrowAsRead};
ghost use Rattle.intact_criteria.specs.Open.{IsOpenIfUndecided};
ghost use Rattle.intact_criteria.specs.Readings.{readings_of, leaks_of, separation_at, gz_at, ends_of};
ghost use Rattle.intact_criteria.specs.Right.{AreRightMarks, IsRightVerdict};
ghost use Rattle.intact_criteria.specs.Stated.{IsAsNarrowAsStated};
ghost use Rattle.intact_criteria.specs.Tables.{HoldFigures, AreSmallArms};

use crate::both::{mark_of, on_both, verdict_of};
use crate::brackets::degree_brackets;
use crate::c1::area_to_30;
use crate::c2::whole_area;
use crate::c3::later_area;
use crate::c4::lever_from_30;
use crate::c5::greatest_lever;
use crate::c6::metacentric_height;
use crate::finding::{Findings, Found, Side};
use crate::readings::arm_at;
use angle_bounds::Bracket;
use dynamic_lever::{ArmTable, UprightRow};
use hull_model::Opening;

/// The marks of the six criteria of the 2008 Intact Stability Code, part A, 2.2.1 to 2.2.4, and the verdict, on the
/// tables that `arms` and `upright` give, for at most 64 openings.
///
/// A choice takes one level plane for each degree from 0 to 90 and one for the upright ship, between the drafts of
/// their rows. A criterion holds at a choice where it holds to port and to starboard. Its mark is Holds only where it
/// holds at every choice, and Fails only where it holds at none; else the mark is Unsure. The verdict is Fail with the
/// first criterion whose mark is Fails; where none is, Undecided with the first that is Unsure; else Pass. It shows what
/// decides on the first side that has the mark, port before starboard; what it shows of an undecided criterion leaves it
/// open, and is no wider than stated of the tables that `arms` and `upright` give.
///
/// The ends of the tables' spans lie below 2^95 in magnitude, as those of `arms` and `upright` do; the ends of what is
/// shown lie below 2^96.
pub fn judge(arms: &ArmTable, upright: &UprightRow, openings: &[Opening]) -> Findings
    requires openings { length openings.now ≤ 64 }
    requires arms { AreSmallArms arms.now }
    requires upright { EndsBelow 95 upright.now.gm.lo upright.now.gm.hi }
    ensures findings { ByBrackets (λ brackets. AreFindings (readings_of brackets arms.now upright.now openings.now) result) }
    ensures marks { (hull : List Station) (loading : Loading) (water : Water) → HoldFigures hull loading water arms.now upright.now → AreRightMarks hull loading water arms.now upright.now openings.now result.marks }
    ensures verdict { (hull : List Station) (loading : Loading) (water : Water) → HoldFigures hull loading water arms.now upright.now → IsRightVerdict hull loading water arms.now upright.now openings.now result.verdict }
    ensures undecided { ByBrackets (λ brackets. IsOpenIfUndecided (readings_of brackets arms.now upright.now openings.now) result.verdict) }
    ensures narrow { ByBrackets (λ brackets. IsAsNarrowAsRead (readings_of brackets arms.now upright.now openings.now) result.verdict) }
    ensures stated { (faces : Faces) (loading : Loading) (water : Water) → IsAsNarrowAsStated faces loading water arms.now upright.now openings.now result.verdict }
    ensures bounded { IsBoundedVerdict result.verdict }
    ensures count { length arms.now.rows ≡ 91 }
{
    // This read tells the prover that there is a row for each degree.
    let _upright = arm_at(arms, 0);
    let brackets = degree_brackets();
    let c1 = first(arms);
    let c2 = second(&brackets, arms, openings);
    let c3 = third(&brackets, arms, openings);
    let c4 = fourth(arms);
    let c5 = fifth(arms);
    let c6 = sixth(upright);
    Findings {
        marks: [
            mark_of(&c1),
            mark_of(&c2),
            mark_of(&c3),
            mark_of(&c4),
            mark_of(&c5),
            mark_of(&c6),
        ],
        verdict: verdict_of(&[c1, c2, c3, c4, c5, c6]),
    }
}

fn first(arms: &ArmTable) -> Found
    requires { AreSmallArms arms.now }
    ensures { IsFoundOnBoth (λ side. C1.IsFound (separation_at arms.now side)) result }
{
    on_both(
        area_to_30(arms, Side::Port),
        area_to_30(arms, Side::Starboard),
    )
}

fn second(brackets: &[Bracket; 91], arms: &ArmTable, openings: &[Opening]) -> Found
    requires small { AreSmallArms arms.now }
    requires few { length openings.now ≤ 64 }
    ensures { IsFoundOnBoth (λ side. C2.IsFound (leaks_of brackets.now arms.now openings.now) (separation_at arms.now side)) result }
{
    on_both(
        whole_area(brackets, arms, openings, Side::Port),
        whole_area(brackets, arms, openings, Side::Starboard),
    )
}

fn third(brackets: &[Bracket; 91], arms: &ArmTable, openings: &[Opening]) -> Found
    requires small { AreSmallArms arms.now }
    requires few { length openings.now ≤ 64 }
    ensures { IsFoundOnBoth (λ side. C3.IsFound (leaks_of brackets.now arms.now openings.now) (separation_at arms.now side)) result }
{
    on_both(
        later_area(brackets, arms, openings, Side::Port),
        later_area(brackets, arms, openings, Side::Starboard),
    )
}

fn fourth(arms: &ArmTable) -> Found
    ensures { IsFoundOnBoth (λ side. C4.IsFound (gz_at arms.now side)) result }
{
    on_both(
        lever_from_30(arms, Side::Port),
        lever_from_30(arms, Side::Starboard),
    )
}

fn fifth(arms: &ArmTable) -> Found
    ensures { IsFoundOnBoth (λ side. C5.IsFound (gz_at arms.now side)) result }
{
    on_both(
        greatest_lever(arms, Side::Port),
        greatest_lever(arms, Side::Starboard),
    )
}

fn sixth(upright: &UprightRow) -> Found
    ensures { IsFoundOnBoth (λ side. C6.IsFound (ends_of upright.now.gm)) result }
{
    let finding = metacentric_height(upright);
    on_both(finding, finding)
}
