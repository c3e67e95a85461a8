// The words of verdicts.
ghost use Rattle.std.specs.Prelude.{◌≡◌, ◌++◌, OnOk};
ghost use Rattle.hull_report.specs.Spelling as spelling;

use crate::line::{Call, ShownLine};
use crate::names::SideLine;
use crate::spelled::{push_criterion, push_figure, push_name, push_u32};
use exact_fraction::Memory;

#[tactic(auto, unfolding(crate::specs::Spelling::spaced))]
pub(crate) fn push_call(text: &mut Vec<u8>, call: &Call) -> Result<(), Memory>
    ensures { OnOk result (text.new.items ≡ text.old.items ++ spelling.spaced (spelling.call_words call.now)) }
{
    match call {
        Call::Pass => push_name(text, b"pass"),
        Call::Fail {
            criterion,
            side,
            shown,
        } => {
            push_name(text, b"fail")?;
            push_cause(text, *criterion, side, shown)
        }
        Call::Undecided {
            criterion,
            side,
            shown,
        } => {
            push_name(text, b"undecided")?;
            push_cause(text, *criterion, side, shown)
        }
    }
}

/// Appends the criterion, the side where one is named, and what is shown.
#[tactic(auto, unfolding(crate::specs::Spelling::spaced))]
pub(crate) fn push_cause(
    text: &mut Vec<u8>,
    criterion: u32,
    side: &Option<SideLine>,
    shown: &ShownLine,
) -> Result<(), Memory>
    ensures { OnOk result (text.new.items ≡ text.old.items ++ spelling.spaced (spelling.cause_words criterion side.now shown.now)) }
{
    push_criterion(text, criterion)?;
    match side {
        Some(side) => {
            push_name(text, side.name())?;
            push_shown(text, shown)
        }
        None => push_shown(text, shown),
    }
}

#[tactic(auto, unfolding(crate::specs::Spelling::spaced))]
fn push_shown(text: &mut Vec<u8>, shown: &ShownLine) -> Result<(), Memory>
    ensures { OnOk result (text.new.items ≡ text.old.items ++ spelling.spaced (spelling.shown_words shown.now)) }
{
    match shown {
        ShownLine::Interval { degree, figure } => {
            push_name(text, b"interval")?;
            push_u32(text, *degree)?;
            push_figure(text, figure)
        }
        ShownLine::Pair { low, high } => {
            push_name(text, b"pair")?;
            push_u32(text, *low)?;
            push_u32(text, *high)
        }
        ShownLine::Leak {
            opening,
            degree,
            figure,
        } => {
            push_name(text, b"leak")?;
            push_u32(text, *opening)?;
            push_u32(text, *degree)?;
            push_figure(text, figure)
        }
        ShownLine::Heel { q, q2, figure } => {
            push_name(text, b"heel")?;
            push_u32(text, *q)?;
            push_u32(text, *q2)?;
            push_figure(text, figure)
        }
        ShownLine::Heels { q, q2, p, p2 } => {
            push_name(text, b"heels")?;
            push_u32(text, *q)?;
            push_u32(text, *q2)?;
            push_u32(text, *p)?;
            push_u32(text, *p2)
        }
    }
}
