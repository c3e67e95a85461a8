// The words of each line of the reports of hullcert.
ghost use Rattle.std.specs.Prelude.{◌≡◌, ◌∷◌, ◌++◌, map, OnOk, codes};
ghost use Rattle.hull_report.specs.declared.line.Line.TheVariants as of;
ghost use Rattle.hull_report.specs.Spelling as spelling;

use crate::line::{Call, CaseEnd, ReasonLine, SafeBox};
use crate::names::{Command, Finding};
use crate::spelled::{
    push_criterion, push_decimals, push_each, push_figure, push_figures, push_first, push_heeled,
    push_i64, push_i128, push_name, push_u32, push_u64, push_version,
};
use crate::spelled_outcomes::{push_end, push_reach, push_reason};
use crate::spelled_verdicts::push_call;
use exact_fraction::Memory;
use outward_interval::Figure;

/// Decimals of the moment of a section.
const MOMENT_PLACES: u32 = 9;

#[tactic(auto, unfolding(crate::specs::Spelling::joined, crate::specs::Spelling::spaced))]
pub(crate) fn push_header(text: &mut Vec<u8>, version: u32, command: &Command) -> Result<(), Memory>
    ensures { OnOk result (text.new.items ≡ text.old.items ++ spelling.joined (spelling.line_words (of.Header version command.now))) }
{
    push_first(text, b"hullcert")?;
    push_version(text, version)?;
    push_name(text, command.name())
}

#[tactic(auto, unfolding(crate::specs::Spelling::joined, crate::specs::Spelling::spaced))]
pub(crate) fn push_hull(text: &mut Vec<u8>, stations: u32, points: u32) -> Result<(), Memory>
    ensures { OnOk result (text.new.items ≡ text.old.items ++ spelling.joined (spelling.line_words (of.Hull stations points))) }
{
    push_first(text, b"hull")?;
    push_u32(text, stations)?;
    push_u32(text, points)
}

#[tactic(auto, unfolding(crate::specs::Spelling::joined, crate::specs::Spelling::spaced))]
pub(crate) fn push_body(text: &mut Vec<u8>, six: &i128) -> Result<(), Memory>
    ensures { OnOk result (text.new.items ≡ text.old.items ++ spelling.joined (spelling.line_words (of.Body six.now))) }
{
    push_first(text, b"body")?;
    push_i128(text, six)
}

#[tactic(auto, unfolding(crate::specs::Spelling::joined, crate::specs::Spelling::spaced))]
pub(crate) fn push_hydro(
    text: &mut Vec<u8>,
    draft: u32,
    figures: &[Option<Figure>; 11],
) -> Result<(), Memory>
    ensures { OnOk result (text.new.items ≡ text.old.items ++ spelling.joined (spelling.line_words (of.Hydro draft figures.now))) }
{
    push_first(text, b"hydro")?;
    push_u32(text, draft)?;
    push_figures(text, figures)
}

#[tactic(auto, unfolding(crate::specs::Spelling::joined, crate::specs::Spelling::spaced))]
pub(crate) fn push_section(
    text: &mut Vec<u8>,
    station: u32,
    x: u32,
    draft: u32,
    area: &Figure,
    moment: &Figure,
) -> Result<(), Memory>
    ensures { OnOk result (text.new.items ≡ text.old.items ++ spelling.joined (spelling.line_words (of.Section station x draft area.now moment.now))) }
{
    push_first(text, b"section")?;
    push_u32(text, station)?;
    push_u32(text, x)?;
    push_u32(text, draft)?;
    push_figure(text, area)?;
    push_decimals(text, moment, MOMENT_PLACES)
}

#[tactic(auto, unfolding(crate::specs::Spelling::joined, crate::specs::Spelling::spaced))]
pub(crate) fn push_cross(
    text: &mut Vec<u8>,
    mass: u64,
    degree: u32,
    d1: &i64,
    d2: &i64,
    kn: &Figure,
) -> Result<(), Memory>
    ensures { OnOk result (text.new.items ≡ text.old.items ++ spelling.joined (spelling.line_words (of.Cross mass degree d1.now d2.now kn.now))) }
{
    push_first(text, b"cross")?;
    push_u64(text, mass)?;
    push_heeled(text, degree, d1, d2, &[*kn])
}

#[tactic(auto, unfolding(crate::specs::Spelling::joined, crate::specs::Spelling::spaced))]
pub(crate) fn push_load(text: &mut Vec<u8>, mass: u64, centre: &[Figure]) -> Result<(), Memory>
    ensures { OnOk result (text.new.items ≡ text.old.items ++ spelling.joined (spelling.Name (codes "load") ∷ spelling.U64 mass ∷ map spelling.figure centre.now)) }
{
    push_first(text, b"load")?;
    push_u64(text, mass)?;
    push_each(text, centre)
}

#[tactic(auto, unfolding(crate::specs::Spelling::joined, crate::specs::Spelling::spaced))]
pub(crate) fn push_upright(
    text: &mut Vec<u8>,
    d1: &i64,
    d2: &i64,
    figures: &[Figure],
) -> Result<(), Memory>
    ensures { OnOk result (text.new.items ≡ text.old.items ++ spelling.joined (spelling.Name (codes "upright") ∷ spelling.I64 d1.now ∷ spelling.I64 d2.now ∷ map spelling.figure figures.now)) }
{
    push_first(text, b"upright")?;
    push_i64(text, d1)?;
    push_i64(text, d2)?;
    push_each(text, figures)
}

#[tactic(auto, unfolding(crate::specs::Spelling::joined, crate::specs::Spelling::spaced))]
pub(crate) fn push_arm(
    text: &mut Vec<u8>,
    degree: u32,
    d1: &i64,
    d2: &i64,
    levers: &[Figure],
) -> Result<(), Memory>
    ensures { OnOk result (text.new.items ≡ text.old.items ++ spelling.joined (spelling.Name (codes "arm") ∷ spelling.U32 degree ∷ spelling.I64 d1.now ∷ spelling.I64 d2.now ∷ map spelling.figure levers.now)) }
{
    push_first(text, b"arm")?;
    push_heeled(text, degree, d1, d2, levers)
}

#[tactic(auto, unfolding(crate::specs::Spelling::joined, crate::specs::Spelling::spaced))]
pub(crate) fn push_mark(text: &mut Vec<u8>, criterion: u32, finding: &Finding) -> Result<(), Memory>
    ensures { OnOk result (text.new.items ≡ text.old.items ++ spelling.joined (spelling.line_words (of.Mark criterion finding.now))) }
{
    push_first(text, b"mark")?;
    push_criterion(text, criterion)?;
    push_name(text, finding.name())
}

#[tactic(auto, unfolding(crate::specs::Spelling::joined, crate::specs::Spelling::spaced))]
pub(crate) fn push_verdict(text: &mut Vec<u8>, call: &Call) -> Result<(), Memory>
    ensures { OnOk result (text.new.items ≡ text.old.items ++ spelling.joined (spelling.line_words (of.Verdict call.now))) }
{
    push_first(text, b"verdict")?;
    push_call(text, call)
}

#[tactic(auto, unfolding(crate::specs::Spelling::joined, crate::specs::Spelling::spaced))]
pub(crate) fn push_damage(text: &mut Vec<u8>, case: u32, end: &CaseEnd) -> Result<(), Memory>
    ensures { OnOk result (text.new.items ≡ text.old.items ++ spelling.joined (spelling.line_words (of.Damage case end.now))) }
{
    push_first(text, b"damage")?;
    push_u32(text, case)?;
    push_end(text, end)
}

#[tactic(auto, unfolding(crate::specs::Spelling::joined, crate::specs::Spelling::spaced))]
pub(crate) fn push_safe(
    text: &mut Vec<u8>,
    centre: u32,
    reach: &Option<SafeBox>,
) -> Result<(), Memory>
    ensures { OnOk result (text.new.items ≡ text.old.items ++ spelling.joined (spelling.line_words (of.Safe centre reach.now))) }
{
    push_first(text, b"safe")?;
    push_u32(text, centre)?;
    push_reach(text, reach)
}

#[tactic(auto, unfolding(crate::specs::Spelling::joined, crate::specs::Spelling::spaced))]
pub(crate) fn push_next(
    text: &mut Vec<u8>,
    centre: u32,
    length: u32,
    reason: &ReasonLine,
) -> Result<(), Memory>
    ensures { OnOk result (text.new.items ≡ text.old.items ++ spelling.joined (spelling.line_words (of.Next centre length reason.now))) }
{
    push_first(text, b"next")?;
    push_u32(text, centre)?;
    push_u32(text, length)?;
    push_reason(text, reason)
}

#[tactic(auto, unfolding(crate::specs::Spelling::joined, crate::specs::Spelling::spaced))]
pub(crate) fn push_count(text: &mut Vec<u8>, lines: u32) -> Result<(), Memory>
    ensures { OnOk result (text.new.items ≡ text.old.items ++ spelling.joined (spelling.line_words (of.End lines))) }
{
    push_first(text, b"end")?;
    push_u32(text, lines)
}
