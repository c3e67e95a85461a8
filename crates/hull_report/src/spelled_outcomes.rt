// The words of damage cases and floodable lengths.
ghost use Rattle.std.specs.Prelude.{◌≡◌, ◌++◌, OnOk};
ghost use Rattle.hull_report.specs.Spelling as spelling;

use crate::line::{CaseEnd, ReasonLine, SafeBox};
use crate::spelled::{push_figure, push_name, push_sides, push_u32};
use exact_fraction::Memory;

#[tactic(auto, unfolding(crate::specs::Spelling::spaced))]
pub(crate) fn push_end(text: &mut Vec<u8>, end: &CaseEnd) -> Result<(), Memory>
    ensures { OnOk result (text.new.items ≡ text.old.items ++ spelling.spaced (spelling.end_words end.now)) }
{
    match end {
        CaseEnd::Settled { sides } => push_sides(text, sides),
        CaseEnd::Sinks { left } => {
            push_name(text, b"sinks")?;
            push_figure(text, left)
        }
        CaseEnd::NoStartFore => {
            push_name(text, b"nostart")?;
            push_name(text, b"fore")
        }
        CaseEnd::NoStartAft => {
            push_name(text, b"nostart")?;
            push_name(text, b"aft")
        }
    }
}

#[tactic(auto, unfolding(crate::specs::Spelling::spaced))]
pub(crate) fn push_reach(text: &mut Vec<u8>, reach: &Option<SafeBox>) -> Result<(), Memory>
    ensures { OnOk result (text.new.items ≡ text.old.items ++ spelling.spaced (spelling.reach_words reach.now)) }
{
    match reach {
        Some(safe) => {
            push_u32(text, safe.length)?;
            push_sides(text, &safe.sides)
        }
        None => push_name(text, b"-"),
    }
}

#[tactic(auto, unfolding(crate::specs::Spelling::spaced))]
pub(crate) fn push_reason(text: &mut Vec<u8>, reason: &ReasonLine) -> Result<(), Memory>
    ensures { OnOk result (text.new.items ≡ text.old.items ++ spelling.spaced (spelling.reason_words reason.now)) }
{
    match reason {
        ReasonLine::Over { station, sides } => {
            push_name(text, b"over")?;
            push_u32(text, *station)?;
            push_sides(text, sides)
        }
        ReasonLine::Touch { station, sides } => {
            push_name(text, b"touch")?;
            push_u32(text, *station)?;
            push_sides(text, sides)
        }
        ReasonLine::Sinks => push_name(text, b"sinks"),
        ReasonLine::NoStart => push_name(text, b"nostart"),
        ReasonLine::EndOfShip => push_name(text, b"endofship"),
    }
}
