// The fields of each line, read from the words behind its name.
ghost use Rattle.std.specs.Prelude.{◌≡◌, IfSome};
ghost use Rattle.hull_report.specs.Spelling.{IsLine};
ghost use Rattle.hull_report.specs.Fields as reading;

use crate::further::further;
use crate::line::Line;
use crate::outcomes::{damage, next, safe};
use crate::verdicts::verdict;
use crate::words::Words;

/// A line whose text may be `text`. It is where the text is a line's: then it is that line.
#[tactic(auto, unfolding(crate::specs::Fields::line_at))]
pub(crate) fn line_of(text: &[u8]) -> Option<Line>
    ensures value { result ≡ reading.line_at text.now }
    ensures fits { IfSome result IsLine }
{
    let mut words = Words::of(text);
    let name = words.next();
    fields(name, &mut words)
}

#[tactic(auto, unfolding(crate::specs::Fields::fields_at))]
fn fields(name: &[u8], words: &mut Words<'_>) -> Option<Line>
    ensures value { result ≡ reading.fields_at name.now words.old.rest.now }
    ensures fits { IfSome result IsLine }
{
    match name {
        name if name == b"hullcert".as_slice() => header(words),
        name if name == b"hull".as_slice() => hull(words),
        name if name == b"body".as_slice() => body(words),
        name if name == b"hydro".as_slice() => hydro(words),
        name if name == b"section".as_slice() => section(words),
        name if name == b"cross".as_slice() => cross(words),
        name if name == b"load".as_slice() => load(words),
        name if name == b"upright".as_slice() => upright(words),
        name if name == b"arm".as_slice() => arm(words),
        name if name == b"mark".as_slice() => mark(words),
        name if name == b"verdict".as_slice() => verdict(words),
        name if name == b"damage".as_slice() => damage(words),
        name if name == b"safe".as_slice() => safe(words),
        name if name == b"next".as_slice() => next(words),
        name if name == b"end".as_slice() => end(words),
        _ => further(name, words),
    }
}

#[tactic(auto, unfolding(crate::specs::Fields::header_at))]
fn header(words: &mut Words<'_>) -> Option<Line>
    ensures value { result ≡ reading.header_at words.old.rest.now }
    ensures fits { IfSome result IsLine }
{
    Some(Line::Header {
        version: words.version()?,
        command: words.command()?,
    })
}

#[tactic(auto, unfolding(crate::specs::Fields::hull_at))]
fn hull(words: &mut Words<'_>) -> Option<Line>
    ensures value { result ≡ reading.hull_at words.old.rest.now }
    ensures fits { IfSome result IsLine }
{
    Some(Line::Hull {
        stations: words.u32()?,
        points: words.u32()?,
    })
}

#[tactic(auto, unfolding(crate::specs::Fields::body_at))]
fn body(words: &mut Words<'_>) -> Option<Line>
    ensures value { result ≡ reading.body_at words.old.rest.now }
    ensures fits { IfSome result IsLine }
{
    Some(Line::Body { six: words.i128()? })
}

#[tactic(auto, unfolding(crate::specs::Fields::hydro_at, crate::specs::Fields::figures_at))]
fn hydro(words: &mut Words<'_>) -> Option<Line>
    ensures value { result ≡ reading.hydro_at words.old.rest.now }
    ensures fits { IfSome result IsLine }
{
    let draft = words.u32()?;
    let volume = Some(words.figure()?);
    let displacement = Some(words.figure()?);
    let lcb = words.figure_or_absent()?;
    let kb = words.figure_or_absent()?;
    let area = Some(words.figure()?);
    let lcf = words.figure_or_absent()?;
    let bmt = words.figure_or_absent()?;
    let bml = words.figure_or_absent()?;
    let kmt = words.figure_or_absent()?;
    let tpc = Some(words.figure()?);
    let mct = words.figure_or_absent()?;
    let figures = [
        volume,
        displacement,
        lcb,
        kb,
        area,
        lcf,
        bmt,
        bml,
        kmt,
        tpc,
        mct,
    ];
    Some(Line::Hydro { draft, figures })
}

#[tactic(auto, unfolding(crate::specs::Fields::section_at))]
fn section(words: &mut Words<'_>) -> Option<Line>
    ensures value { result ≡ reading.section_at words.old.rest.now }
    ensures fits { IfSome result IsLine }
{
    Some(Line::Section {
        station: words.u32()?,
        x: words.u32()?,
        draft: words.u32()?,
        area: words.figure()?,
        moment: words.figure()?,
    })
}

#[tactic(auto, unfolding(crate::specs::Fields::cross_at))]
fn cross(words: &mut Words<'_>) -> Option<Line>
    ensures value { result ≡ reading.cross_at words.old.rest.now }
    ensures fits { IfSome result IsLine }
{
    Some(Line::Cross {
        mass: words.u64()?,
        degree: words.u32()?,
        d1: words.i64()?,
        d2: words.i64()?,
        kn: words.figure()?,
    })
}

#[tactic(auto, unfolding(crate::specs::Fields::load_at))]
fn load(words: &mut Words<'_>) -> Option<Line>
    ensures value { result ≡ reading.load_at words.old.rest.now }
    ensures fits { IfSome result IsLine }
{
    let mass = words.u64()?;
    let lcg = words.figure()?;
    let second = words.figure()?;
    Some(match words.figure() {
        Some(kg) => Line::Load2 {
            mass,
            lcg,
            tcg: second,
            kg,
        },
        None => Line::Load {
            mass,
            lcg,
            kg: second,
        },
    })
}

#[tactic(auto, unfolding(crate::specs::Fields::upright_at))]
fn upright(words: &mut Words<'_>) -> Option<Line>
    ensures value { result ≡ reading.upright_at words.old.rest.now }
    ensures fits { IfSome result IsLine }
{
    Some(Line::Upright {
        d1: words.i64()?,
        d2: words.i64()?,
        kb: words.figure()?,
        bm: words.figure()?,
        gm: words.figure()?,
    })
}

#[tactic(auto, unfolding(crate::specs::Fields::arm_at))]
fn arm(words: &mut Words<'_>) -> Option<Line>
    ensures value { result ≡ reading.arm_at words.old.rest.now }
    ensures fits { IfSome result IsLine }
{
    let degree = words.u32()?;
    let d1 = words.i64()?;
    let d2 = words.i64()?;
    let port = words.lever()?;
    Some(match words.lever() {
        Some(star) => Line::Arm2 {
            degree,
            d1,
            d2,
            port_gz: port.gz,
            port_area: port.area,
            star_gz: star.gz,
            star_area: star.area,
        },
        None => Line::Arm {
            degree,
            d1,
            d2,
            gz: port.gz,
            area: port.area,
        },
    })
}

#[tactic(auto, unfolding(crate::specs::Fields::mark_at))]
fn mark(words: &mut Words<'_>) -> Option<Line>
    ensures value { result ≡ reading.mark_at words.old.rest.now }
    ensures fits { IfSome result IsLine }
{
    Some(Line::Mark {
        criterion: words.criterion()?,
        finding: words.finding()?,
    })
}

#[tactic(auto, unfolding(crate::specs::Fields::end_line_at))]
fn end(words: &mut Words<'_>) -> Option<Line>
    ensures value { result ≡ reading.end_line_at words.old.rest.now }
    ensures fits { IfSome result IsLine }
{
    Some(Line::End {
        lines: words.u32()?,
    })
}
