// The top call: from words to the bytes of a report.
ghost use Rattle.std.specs.Prelude.{◌≡◌, ◌≢◌, ◌≤◌, ◌⊎◌, List, ℕ, Some, None, IfOk, IfErr, map, string_bytes};
ghost use Rattle.desk.specs.Causes.{Rose, NeverFails, NeverFailsToTake};
ghost use Rattle.hull_report.specs.Spelling.{AreLines};
ghost use Rattle.report_run.specs.Answers.{Answers};
ghost use Rattle.report_run.specs.Shelves.{between};
ghost use Rattle.hull_cli.specs.Answers.{CanBeGiven, Decides, Reports, ReportsOn, ReportsWith};
ghost use Rattle.hull_cli.specs.Requests.{form_seen};
ghost use Rattle.hull_cli.specs.Stops.{Stops, StopsOn};
ghost use Rattle.hull_cli.specs.Words as form;
ghost use Rattle.hull_cli.specs.Words.{AskForNoFile, Form, form_of, HasTables, IsServed};

use crate::made::made_report;
use crate::section::section_report;
use crate::tables::tables_report;
use crate::verdict::report_status;
use crate::words::{Request, request_of};
use desk::{Shelf, Sink};
use exact_fraction::Memory;
use hull_report::{Command, Line, text_of};
use report_run::{Refusal, Status, Stop, put_all, read_hull, read_job_file};
use std::alloc::Global;

/// Does what the words say: reads from the shelf, and writes one report, `refused` line or `fault` line to
/// the sink.
///
/// `words` are the command's words without the program's name. The whole text is made before the first
/// byte is written.
pub fn run<S: Shelf, K: Sink>(alloc: Global, words: &[String], shelf: &mut S, out: &mut K) -> Status
    ensures answers { Answers K.faults K.taken (Decides (between S.held S.faults S.taken shelf.old shelf.new) (map string_bytes words.now)) result out.old out.new }
    ensures same { (n : List ℕ) → S.held shelf.new n ≡ S.held shelf.old n }
    ensures no_fetch { AskForNoFile (form_of (map string_bytes words.now)) → shelf.new ≡ shelf.old }
    ensures complete { (form : Form) → form_of (map string_bytes words.now) ≡ Some form
        → CanBeGiven (between S.held S.faults S.taken shelf.old shelf.new) form
        → ¬ (Rose (K.faults out.old) (K.faults out.new))
        → ReportsWith (between S.held S.faults S.taken shelf.old shelf.new) (map string_bytes words.now) result ⊎ (result ≡ Status.NoMemory) }

    // Over stores that never fail, as `SureShelf` and `SureSink`.
    ensures sure { NeverFails S.faults → NeverFailsToTake K.faults → (result ≢ Status.ReadFault) × (result ≢ Status.WriteFault) }
{
    match answer_of(alloc, words, shelf) {
        Ok(answer) => {
            if put_all(out, &answer.text) {
                answer.status
            } else {
                Status::WriteFault
            }
        }
        Err(_) => Status::NoMemory,
    }
}

// What is to be written, and the status that it comes with.
#[derive(Drop)]
struct Answer {
    text: Vec<u8>,
    status: Status,
}

fn answer_of<S: Shelf>(alloc: Global, words: &[String], shelf: &mut S) -> Result<Answer, Memory>
    ensures decides { IfOk result (λ a. Decides (between S.held S.faults S.taken shelf.old shelf.new) (map string_bytes words.now) a.status a.text.items) }
    ensures same { (n : List ℕ) → S.held shelf.new n ≡ S.held shelf.old n }
    ensures no_fetch { AskForNoFile (form_of (map string_bytes words.now)) → shelf.new ≡ shelf.old }
{
    match report_of(alloc, words, shelf) {
        Ok(lines) => Ok(Answer {
            text: text_of(alloc, &lines)?,
            status: report_status(&lines),
        }),
        Err(Stop::Refused(refusal)) => Ok(Answer {
            text: refusal.text(alloc)?,
            status: Status::Refused,
        }),
        Err(Stop::Unread(file)) => Ok(Answer {
            text: file.unread(alloc)?,
            status: Status::ReadFault,
        }),
        Err(Stop::NoMemory) => Err(Memory),
    }
}

fn report_of<S: Shelf>(alloc: Global, words: &[String], shelf: &mut S) -> Result<Vec<Line>, Stop>
    ensures reports { IfOk result (λ lines. Reports (between S.held S.faults S.taken shelf.old shelf.new) (map string_bytes words.now) lines.items) }
    ensures grammar { IfOk result (λ lines. AreLines lines.items) }
    ensures stops { IfErr result (Stops (between S.held S.faults S.taken shelf.old shelf.new) (map string_bytes words.now)) }
    ensures same { (n : List ℕ) → S.held shelf.new n ≡ S.held shelf.old n }
    ensures no_fetch { AskForNoFile (form_of (map string_bytes words.now)) → shelf.new ≡ shelf.old }
{
    match request_of(words) {
        Some(request) => report_on(alloc, request, shelf),
        None => Err(Stop::Refused(Refusal::Usage)),
    }
}

fn report_on<S: Shelf>(
    alloc: Global,
    request: Request<'_>,
    shelf: &mut S,
) -> Result<Vec<Line>, Stop>
    requires { IsServed (form_seen request) }
    ensures reports { IfOk result (λ lines. ReportsOn (between S.held S.faults S.taken shelf.old shelf.new) (form_seen request.entry) lines.items) }
    ensures grammar { IfOk result (λ lines. AreLines lines.items) }
    ensures stops { IfErr result (StopsOn (between S.held S.faults S.taken shelf.old shelf.new) (form_seen request.entry)) }
    ensures same { (n : List ℕ) → S.held shelf.new n ≡ S.held shelf.old n }
    ensures no_fetch { AskForNoFile (Some (form_seen request.entry)) → shelf.new ≡ shelf.old }
{
    match request {
        Request::Section {
            offsets,
            station,
            draft,
        } => section_on(alloc, shelf, offsets, station, draft),
        Request::Tables {
            command,
            job,
            offsets,
        } => tables_on(alloc, shelf, command, job, offsets),
        Request::Make { seed } => Ok(made_report(alloc, seed)?),
    }
}

fn section_on<S: Shelf>(
    alloc: Global,
    shelf: &mut S,
    offsets: &str,
    station: u32,
    draft: u32,
) -> Result<Vec<Line>, Stop>
    requires { draft ≤ 131071 }
    ensures reports { IfOk result (λ lines. ReportsOn (between S.held S.faults S.taken shelf.old shelf.new) (form.section offsets.now station draft) lines.items) }
    ensures grammar { IfOk result (λ lines. AreLines lines.items) }
    ensures stops { IfErr result (StopsOn (between S.held S.faults S.taken shelf.old shelf.new) (form.section offsets.now station draft)) }
    ensures same { (n : List ℕ) → S.held shelf.new n ≡ S.held shelf.old n }
{
    let hull = read_hull(alloc, shelf, offsets)?;
    section_report(alloc, &hull, station, draft)
}

fn tables_on<S: Shelf>(
    alloc: Global,
    shelf: &mut S,
    command: Command,
    job: &str,
    offsets: &str,
) -> Result<Vec<Line>, Stop>
    requires { HasTables command }
    ensures reports { IfOk result (λ lines. ReportsOn (between S.held S.faults S.taken shelf.old shelf.new) (form.tables command job.now offsets.now) lines.items) }
    ensures grammar { IfOk result (λ lines. AreLines lines.items) }
    ensures stops { IfErr result (StopsOn (between S.held S.faults S.taken shelf.old shelf.new) (form.tables command job.now offsets.now)) }
    ensures same { (n : List ℕ) → S.held shelf.new n ≡ S.held shelf.old n }
{
    let job = read_job_file(alloc, shelf, job)?;
    let hull = read_hull(alloc, shelf, offsets)?;
    tables_report(alloc, command, &hull, &job)
}
