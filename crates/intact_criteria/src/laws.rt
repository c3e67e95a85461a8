// Theorems about the definitions, each the contract of a function with an empty body.
ghost use Rattle.intact_criteria.specs.Areas.{AreasHoldAtEveryChoice};
ghost use Rattle.intact_criteria.specs.Decided.{MarksAreDecided};
ghost use Rattle.intact_criteria.specs.Narrow.{DepthsAreNarrow, RowsAreNarrow};
ghost use Rattle.intact_criteria.specs.Tables.{RowsSuffice};

/// Two findings by the rules on the same tables have the same marks.
pub fn marks_are_decided()
    ensures { MarksAreDecided }
{}

/// The tables that `arms` and `upright` give are small enough to be judged, and hold the figures of the hull.
#[tactic(auto, using(crate::proofs::Rows::rows_suffice))]
pub fn rows_suffice()
    ensures { RowsSuffice }
{}

/// The depth interval of an opening is no wider than the drafts lie apart, the turn of cosine and sine times the opening's
/// distances, and 2^-16 mm.
#[tactic(auto, using(crate::proofs::DepthWidths::depths_are_narrow))]
pub fn depths_are_narrow()
    ensures { DepthsAreNarrow }
{}

/// The levers, separations and GM of the tables that `arms` and `upright` give are no wider than these promise.
#[tactic(auto, using(crate::proofs::Rows::rows_are_narrow))]
pub fn rows_are_narrow()
    ensures { RowsAreNarrow }
{}

/// The areas under GZ from upright to each degree from 0 to 90: the intervals of tables that hold the figures of a hull contain
/// the exact areas at every choice of waterplanes, and are no wider than the two separations together.
#[tactic(auto, using(crate::proofs::AreasHeld::areas_hold))]
pub fn areas_hold_at_every_choice()
    ensures { AreasHoldAtEveryChoice }
{}
