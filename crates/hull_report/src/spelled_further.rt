// The words of each line of further reports: tanks, strength, flooded arms, limiting heights.
ghost use Rattle.std.specs.Prelude.{◌≡◌, [], ◌∷◌, ◌++◌, true, map, OnOk, codes};
ghost use Rattle.hull_report.specs.declared.line.Line.TheVariants as of;
ghost use Rattle.hull_report.specs.Spelling as spelling;
ghost use Rattle.hull_report.specs.Groups.{IsFurther};

use crate::line::{CaseEnd, LimitLine, Line};
use crate::spelled::{
    push_each, push_figure, push_figure_or_absent, push_first, push_heeled, push_name, push_u32,
    push_u64,
};
use crate::spelled_outcomes::push_end;
use crate::spelled_verdicts::push_cause;
use exact_fraction::Memory;
use outward_interval::Figure;

/// Appends the words of a line of a further report.
pub(crate) fn push_further(text: &mut Vec<u8>, line: &Line) -> Result<(), Memory>
    requires { IsFurther line.now }
    ensures { OnOk result (text.new.items ≡ text.old.items ++ spelling.joined (spelling.line_words line.now)) }
{
    match line {
        Line::Tank {
            compartment,
            level,
            volume,
            lcg,
            kg,
            inertia,
        } => push_tank(text, *compartment, *level, volume, lcg, kg, inertia),
        Line::Float { end } => push_float(text, end),
        Line::Strength {
            station,
            x,
            shear,
            bend,
        } => push_strength(text, *station, *x, shear, bend),
        Line::FloodedArm {
            case,
            degree,
            d1,
            d2,
            port_gz,
            port_area,
            star_gz,
            star_area,
        } => {
            let levers = [*port_gz, *port_area, *star_gz, *star_area];
            push_flooded_arm(text, *case, *degree, d1, d2, &levers)
        }
        Line::FloodedShort { case, degree, left } => {
            push_flooded_short(text, *case, *degree, left)
        }
        Line::LimitsHead => push_limits_head(text),
        Line::Limit { mass, height } => push_limit(text, *mass, height),
        Line::Beyond { mass, height, why } => push_beyond(text, *mass, *height, why),
        _ => unreachable!(),
    }
}

#[tactic(auto, unfolding(crate::specs::Spelling::joined, crate::specs::Spelling::spaced))]
fn push_tank(
    text: &mut Vec<u8>,
    compartment: u32,
    level: u32,
    volume: &Figure,
    lcg: &Option<Figure>,
    kg: &Option<Figure>,
    inertia: &Figure,
) -> Result<(), Memory>
    ensures { OnOk result (text.new.items ≡ text.old.items ++ spelling.joined (spelling.line_words (of.Tank compartment level volume.now lcg.now kg.now inertia.now))) }
{
    push_first(text, b"tank")?;
    push_u32(text, compartment)?;
    push_u32(text, level)?;
    push_contents(text, volume, lcg, kg, inertia)
}

/// Appends the volume of a tank's contents, their centre, and the inertia of their surface.
#[tactic(auto, unfolding(crate::specs::Spelling::spaced))]
fn push_contents(
    text: &mut Vec<u8>,
    volume: &Figure,
    lcg: &Option<Figure>,
    kg: &Option<Figure>,
    inertia: &Figure,
) -> Result<(), Memory>
    ensures { OnOk result (text.new.items ≡ text.old.items ++ spelling.spaced (spelling.figure volume.now ∷ spelling.figure_or_absent true lcg.now ∷ spelling.figure_or_absent true kg.now ∷ spelling.figure inertia.now ∷ [])) }
{
    push_figure(text, volume)?;
    push_figure_or_absent(text, lcg)?;
    push_figure_or_absent(text, kg)?;
    push_figure(text, inertia)
}

#[tactic(auto, unfolding(crate::specs::Spelling::joined, crate::specs::Spelling::spaced))]
fn push_float(text: &mut Vec<u8>, end: &CaseEnd) -> Result<(), Memory>
    ensures { OnOk result (text.new.items ≡ text.old.items ++ spelling.joined (spelling.line_words (of.Float end.now))) }
{
    push_first(text, b"float")?;
    push_end(text, end)
}

#[tactic(auto, unfolding(crate::specs::Spelling::joined, crate::specs::Spelling::spaced))]
fn push_strength(
    text: &mut Vec<u8>,
    station: u32,
    x: u32,
    shear: &Figure,
    bend: &Figure,
) -> Result<(), Memory>
    ensures { OnOk result (text.new.items ≡ text.old.items ++ spelling.joined (spelling.line_words (of.Strength station x shear.now bend.now))) }
{
    push_first(text, b"strength")?;
    push_u32(text, station)?;
    push_u32(text, x)?;
    push_each(text, &[*shear, *bend])
}

#[tactic(auto, unfolding(crate::specs::Spelling::joined, crate::specs::Spelling::spaced))]
fn push_flooded_arm(
    text: &mut Vec<u8>,
    case: u32,
    degree: u32,
    d1: &i64,
    d2: &i64,
    levers: &[Figure],
) -> Result<(), Memory>
    ensures { OnOk result (text.new.items ≡ text.old.items ++ spelling.joined (spelling.Name (codes "darm") ∷ spelling.U32 case ∷ spelling.U32 degree ∷ spelling.I64 d1.now ∷ spelling.I64 d2.now ∷ map spelling.figure levers.now)) }
{
    push_first(text, b"darm")?;
    push_u32(text, case)?;
    push_heeled(text, degree, d1, d2, levers)
}

#[tactic(auto, unfolding(crate::specs::Spelling::joined, crate::specs::Spelling::spaced))]
fn push_flooded_short(
    text: &mut Vec<u8>,
    case: u32,
    degree: u32,
    left: &Figure,
) -> Result<(), Memory>
    ensures { OnOk result (text.new.items ≡ text.old.items ++ spelling.joined (spelling.line_words (of.FloodedShort case degree left.now))) }
{
    push_first(text, b"dshort")?;
    push_u32(text, case)?;
    push_u32(text, degree)?;
    push_figure(text, left)
}

#[tactic(auto, unfolding(crate::specs::Spelling::joined, crate::specs::Spelling::spaced))]
fn push_limits_head(text: &mut Vec<u8>) -> Result<(), Memory>
    ensures { OnOk result (text.new.items ≡ text.old.items ++ spelling.joined (spelling.line_words of.LimitsHead)) }
{
    push_first(text, b"hulllimits")?;
    push_name(text, b"1")
}

#[tactic(auto, unfolding(crate::specs::Spelling::joined, crate::specs::Spelling::spaced))]
fn push_limit(text: &mut Vec<u8>, mass: u64, height: &Option<u32>) -> Result<(), Memory>
    ensures { OnOk result (text.new.items ≡ text.old.items ++ spelling.joined (spelling.line_words (of.Limit mass height.now))) }
{
    push_first(text, b"limit")?;
    push_u64(text, mass)?;
    push_u32_or_absent(text, height)
}

fn push_u32_or_absent(text: &mut Vec<u8>, number: &Option<u32>) -> Result<(), Memory>
    ensures { OnOk result (text.new.items ≡ text.old.items ++ 32 ∷ spelling.word_text (spelling.number_or_absent number.now)) }
{
    match number {
        Some(number) => push_u32(text, *number),
        None => push_name(text, b"-"),
    }
}

#[tactic(auto, unfolding(crate::specs::Spelling::joined, crate::specs::Spelling::spaced))]
fn push_beyond(text: &mut Vec<u8>, mass: u64, height: u32, why: &LimitLine) -> Result<(), Memory>
    ensures { OnOk result (text.new.items ≡ text.old.items ++ spelling.joined (spelling.line_words (of.Beyond mass height why.now))) }
{
    push_first(text, b"beyond")?;
    push_u64(text, mass)?;
    push_u32(text, height)?;
    push_why(text, why)
}

#[tactic(auto, unfolding(crate::specs::Spelling::spaced))]
fn push_why(text: &mut Vec<u8>, why: &LimitLine) -> Result<(), Memory>
    ensures { OnOk result (text.new.items ≡ text.old.items ++ spelling.spaced (spelling.limit_words why.now)) }
{
    match why {
        LimitLine::EndOfRange => push_name(text, b"endofrange"),
        LimitLine::Fail { criterion, shown } => {
            push_name(text, b"fail")?;
            push_cause(text, *criterion, &None, shown)
        }
        LimitLine::Undecided { criterion, shown } => {
            push_name(text, b"undecided")?;
            push_cause(text, *criterion, &None, shown)
        }
    }
}
