// Texts of lines, and the lines of texts.
use crate::{Command, Line, lines_of, text_of};
use exact_fraction::Memory;
use outward_interval::Figure;
use std::alloc::Global;
use std::test::Fail;

mod forms;
mod wrong;

const SECTION: &str = "\
hullcert 1 section\n\
hull 3 6\n\
section 1 50000 5000 [100.000000,100.000000] [250.000000000,250.000000000]\n\
end 4\n";

// The lines of a text, where their text is that text again.
fn both_ways(alloc: Global, text: &[u8]) -> Result<Vec<Line>, &'static str> {
    if text.len() > 1_000_000 {
        return Err("the text is long");
    }
    let Ok(lines) = lines_of(alloc, text) else {
        return Err("the text isn't in the grammar");
    };
    match text_of(alloc, &lines) {
        Ok(again) if again.as_slice() == text => Ok(lines),
        _ => Err("the lines have another text"),
    }
}

// The text of a section's report.
fn section_text(
    alloc: Global,
    hull: (u32, u32),
    place: (u32, u32, u32),
    area: Figure,
    moment: Figure,
) -> Result<Vec<u8>, Memory> {
    let lines = [
        Line::Header {
            version: 1,
            command: Command::Section,
        },
        Line::Hull {
            stations: hull.0,
            points: hull.1,
        },
        Line::Section {
            station: place.0,
            x: place.1,
            draft: place.2,
            area,
            moment,
        },
        Line::End { lines: 4 },
    ];
    text_of(alloc, &lines)
}

#[test]
fn four_lines_make_the_report_of_a_section(rt: HostRuntime) -> Result<(), Fail> {
    let area = Figure {
        lo: 100_000_000,
        hi: 100_000_000,
    };
    let moment = Figure {
        lo: 250_000_000_000,
        hi: 250_000_000_000,
    };
    let text = section_text(rt.alloc(), (3, 6), (1, 50_000, 5000), area, moment);
    let text = text.ok().ok_or("memory was refused")?;
    assert_eq!(rt; text.as_slice(), SECTION.as_bytes());
    Ok(())
}

#[test]
fn report_of_a_section_has_four_lines(rt: HostRuntime) -> Result<(), Fail> {
    let lines = both_ways(rt.alloc(), SECTION.as_bytes())?;
    let area = Figure {
        lo: 100_000_000,
        hi: 100_000_000,
    };
    let moment = Figure {
        lo: 250_000_000_000,
        hi: 250_000_000_000,
    };
    assert_eq!(rt;
        lines.as_slice(),
        [
            Line::Header {
                version: 1,
                command: Command::Section,
            },
            Line::Hull {
                stations: 3,
                points: 6,
            },
            Line::Section {
                station: 1,
                x: 50_000,
                draft: 5000,
                area,
                moment,
            },
            Line::End { lines: 4 },
        ]
        .as_slice()
    );
    Ok(())
}

#[test]
fn no_lines_have_no_text(rt: HostRuntime) -> Result<(), Fail> {
    assert!(rt; both_ways(rt.alloc(), b"")?.is_empty());
    Ok(())
}
