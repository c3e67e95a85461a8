// The text of lines.
ghost use Rattle.std.specs.Prelude.{◌≡◌, ◌++◌, IfOk, OnOk};
ghost use Rattle.hull_report.specs.Spelling as spelling;
ghost use Rattle.hull_report.specs.Groups.{IsFlotation};

use crate::line::Line;
use crate::spelled_further::push_further;
use crate::spelled_lines::{
    push_arm, push_body, push_count, push_cross, push_damage, push_header, push_hull, push_hydro,
    push_load, push_mark, push_next, push_safe, push_section, push_upright, push_verdict,
};
use exact_fraction::Memory;
use std::alloc::Global;

/// The text of lines: of each its words, parted by one space, and a line feed.
///
/// Each line must be of the grammar: the version is 1 or 2, criteria go from 1 to 6, and in a hydro line no figure is
/// absent but LCB, KB, LCF, BMT, BML, KMT and MCT. [`lines_of`](crate::lines_of) gives the lines back. Answers [`Memory`] where memory is
/// refused.
pub fn text_of(alloc: Global, lines: &[Line]) -> Result<Vec<u8>, Memory>
    requires { spelling.AreLines lines.now }
    ensures { IfOk result (λ text. text.items ≡ spelling.lines_text lines.now) }
{
    let mut text = Vec::new(alloc);
    for line in lines {
        push_line(&mut text, line)?;
    }
    Ok(text)
}

fn push_line(text: &mut Vec<u8>, line: &Line) -> Result<(), Memory>
    ensures { OnOk result (text.new.items ≡ text.old.items ++ spelling.line_text line.now) }
{
    push_words(text, line)?;
    text.push(b'\n')?;
    Ok(())
}

/// Appends the words of a line, parted by one space.
pub(crate) fn push_words(text: &mut Vec<u8>, line: &Line) -> Result<(), Memory>
    ensures { OnOk result (text.new.items ≡ text.old.items ++ spelling.joined (spelling.line_words line.now)) }
{
    match line {
        Line::Header { version, command } => push_header(text, *version, command),
        Line::Hull { stations, points } => push_hull(text, *stations, *points),
        Line::Body { six } => push_body(text, six),
        Line::Hydro { draft, figures } => push_hydro(text, *draft, figures),
        Line::Section {
            station,
            x,
            draft,
            area,
            moment,
        } => push_section(text, *station, *x, *draft, area, moment),
        Line::Mark { criterion, finding } => push_mark(text, *criterion, finding),
        Line::Verdict { call } => push_verdict(text, call),
        Line::Damage { case, end } => push_damage(text, *case, end),
        Line::Safe { centre, reach } => push_safe(text, *centre, reach),
        Line::Next {
            centre,
            length,
            reason,
        } => push_next(text, *centre, *length, reason),
        Line::End { lines } => push_count(text, *lines),
        Line::Cross { .. }
        | Line::Load { .. }
        | Line::Load2 { .. }
        | Line::Upright { .. }
        | Line::Arm { .. }
        | Line::Arm2 { .. } => push_flotation(text, line),
        _ => push_further(text, line),
    }
}

/// Appends the words of a line of drafts, loads and levers.
fn push_flotation(text: &mut Vec<u8>, line: &Line) -> Result<(), Memory>
    requires { IsFlotation line.now }
    ensures { OnOk result (text.new.items ≡ text.old.items ++ spelling.joined (spelling.line_words line.now)) }
{
    match line {
        Line::Cross {
            mass,
            degree,
            d1,
            d2,
            kn,
        } => push_cross(text, *mass, *degree, d1, d2, kn),
        Line::Load { mass, lcg, kg } => push_load(text, *mass, &[*lcg, *kg]),
        Line::Load2 { mass, lcg, tcg, kg } => push_load(text, *mass, &[*lcg, *tcg, *kg]),
        Line::Upright { d1, d2, kb, bm, gm } => push_upright(text, d1, d2, &[*kb, *bm, *gm]),
        Line::Arm {
            degree,
            d1,
            d2,
            gz,
            area,
        } => push_arm(text, *degree, d1, d2, &[*gz, *area]),
        Line::Arm2 {
            degree,
            d1,
            d2,
            port_gz,
            port_area,
            star_gz,
            star_area,
        } => {
            let levers = [*port_gz, *port_area, *star_gz, *star_area];
            push_arm(text, *degree, d1, d2, &levers)
        }
        _ => unreachable!(),
    }
}
