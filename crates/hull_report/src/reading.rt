// The lines of a text.
ghost use Rattle.std.specs.Prelude.{◌≡◌, ◌<◌, ◌^◌, ℕ, List, length, Err, IfOk, option_map};
ghost use Rattle.hull_report.specs.declared.line.Line.{Line};
ghost use Rattle.hull_report.specs.declared.read_back.ReadBack.TheVariants as back;
ghost use Rattle.hull_report.specs.Spelling.{AreLines, lines_text};
ghost use Rattle.hull_report.specs.Answers.{IsFirstBad, Begins, Answers, IsReadAs, IsBadAt};

use crate::fields::line_of;
use crate::line::Line;
use crate::read_back::ReadBack;
use crate::word::cut;
use crate::writing::push_words;
use exact_fraction::Memory;
use std::alloc::Global;

/// The lines whose text the bytes are. There are fewer than 2^32 bytes.
///
/// `Ok` comes exactly where the bytes are the text of lines, and gives those. `Bad` comes exactly where a line is the
/// first that isn't in the grammar, and gives its number, from 1; a last line without a line feed is none of the
/// grammar. `Memory` may come in place of either.
pub fn lines_of(alloc: Global, bytes: &[u8]) -> Result<Vec<Line>, ReadBack>
    requires { length bytes.now < 2 ^ 32 }
    // What is read is spelled so.
    ensures ok { IfOk result (λ lines. AreLines lines.items × (bytes.now ≡ lines_text lines.items)) }
    // What is spelled so is read.
    ensures only { (lines : List Line) → AreLines lines → bytes.now ≡ lines_text lines → IsReadAs lines result }
    // The line that is answered is the first that isn't in the grammar.
    ensures bad { (n : ℕ) → result ≡ Err (back.Bad n) → IsFirstBad bytes.now n }
    // The first line that isn't in the grammar is answered.
    ensures bad_only { (n : ℕ) → IsFirstBad bytes.now n → IsBadAt n result }
{
    all_lines(alloc, bytes)
}

fn all_lines(alloc: Global, bytes: &[u8]) -> Result<Vec<Line>, ReadBack>
    requires { length bytes.now < 2 ^ 32 }
    ensures { Answers bytes.now result }
{
    let mut lines = Vec::new(alloc);
    let mut rest = bytes;
    while !rest.is_empty() {
        match first_line(alloc, rest)? {
            Some((line, after)) => {
                lines.push(line)?;
                rest = after;
            }
            None => {
                return Err(ReadBack::Bad {
                    line: lines.len() as u32 + 1,
                });
            }
        }
    }
    Ok(lines)
}

/// The line whose text the bytes begin with, and what follows it.
fn first_line(alloc: Global, bytes: &[u8]) -> Result<Option<(Line, &[u8])>, Memory>
    ensures { IfOk result (λ found. Begins bytes.now (option_map (λ p. (p.0, p.1.now)) found)) }
{
    let Some((text, after)) = cut(bytes, b'\n') else {
        return Ok(None);
    };
    let Some(line) = line_of(text) else {
        return Ok(None);
    };
    let mut spelled = Vec::new(alloc);
    push_words(&mut spelled, &line)?;
    if spelled.as_slice() == text {
        Ok(Some((line, after)))
    } else {
        Ok(None)
    }
}
