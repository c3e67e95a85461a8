// The brackets of the degrees.
ghost use Rattle.std.specs.Prelude.{◌≡◌, ◌≤◌, Some, slice_get};
ghost use Rattle.draft_bracket.specs.DraftBracket.{IsOfDegree};
ghost use Rattle.intact_criteria.specs.Brackets.{AreDegreeBrackets};

use angle_bounds::{Bracket, Degree, bracket_of};
use std::array;

/// The bracket of each degree from 0 to 90.
pub(crate) fn degree_brackets() -> [Bracket; 91]
    ensures { AreDegreeBrackets result }
{
    array::from_fn(bracket_of_degree)
}

fn bracket_of_degree(degree: usize) -> Bracket
    requires { degree ≤ 90 }
    ensures { IsOfDegree degree result }
{
    match Degree::new(degree as u32) {
        Some(degree) => bracket_of(degree),
        None => unreachable!(),
    }
}

/// The one of a degree.
pub(crate) fn bracket_at(brackets: &[Bracket; 91], degree: u32) -> &Bracket
    requires { degree ≤ 90 }
    ensures { slice_get brackets.now degree ≡ Some result.now }
{
    &brackets[degree as usize]
}
