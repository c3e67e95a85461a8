mod barge;
mod cargo;
mod hostile;
mod made;
mod refusals;
mod reports;
mod words;

ghost use Rattle.std.specs.Prelude.{◌≢◌};

use crate::{Status, run};
use desk::{MemShelf, MemSink, SureShelf, SureSink};
use std::alloc::{AllocError, Global};
use std::test::Fail;

// Files and reports stand here with a slash for each line feed.
const BARGE: &str =
    "0,10000,0/0,10000,10000/50000,10000,0/50000,10000,10000/100000,10000,0/100000,10000,10000/";

const JOB: &str = "version = 1/density = 1025/length_bp = 100000/drafts = [5000]/";

const REPORT: &str =
    "hullcert 1 section/hull 3 6/section 1 50000 5000 [100.000000,100.000000] [250.000000000,250.000000000]/end 4/";

fn bytes_of(alloc: Global, text: &str) -> Result<Vec<u8>, AllocError> {
    let mut bytes = text.as_bytes().to_vec(alloc)?;
    for byte in &mut bytes {
        if *byte == b'/' {
            *byte = b'\n';
        }
    }
    Ok(bytes)
}

// Words that are parted by a bar; no text has no words.
fn words_of(alloc: Global, text: &str) -> Result<Vec<String>, AllocError> {
    let mut words = Vec::new(alloc);
    if !text.is_empty() {
        for word in text.split('|') {
            words.push(String::from_str(alloc, word)?)?;
        }
    }
    Ok(words)
}

fn files_of(
    alloc: Global,
    job: Vec<u8>,
    hull: Vec<u8>,
) -> Result<Vec<(String, Vec<u8>)>, AllocError> {
    let mut files = Vec::new(alloc);
    files.push((String::from_str(alloc, "job.toml")?, job))?;
    files.push((String::from_str(alloc, "hull.csv")?, hull))?;
    Ok(files)
}

// A shelf whose fetches of these numbers fail.
fn shelf_of(
    alloc: Global,
    job: Vec<u8>,
    hull: Vec<u8>,
    fails: Vec<u64>,
) -> Result<MemShelf, AllocError> {
    Ok(MemShelf::of(files_of(alloc, job, hull)?, fails))
}

// Whether a run ends with this code and writes this text, to a sink that takes 25 bytes at once.
fn answers(
    alloc: Global,
    shelf: &mut MemShelf,
    words: &str,
    code: u8,
    text: &str,
) -> Result<bool, Fail> {
    let words = words_of(alloc, words)?;
    let wanted = bytes_of(alloc, text)?;
    let mut out = MemSink::new(alloc, 16384, 25, Vec::new(alloc))?;
    let status = run(alloc, &words, shelf, &mut out);
    Ok(status.code() == code && out.taken() == wanted.as_slice())
}

// The first case that is answered otherwise: its exit code, what is written, the words, and a job and a hull where they
// aren't those above.
fn wrong_case(alloc: Global, cases: &str) -> Result<Option<&str>, Fail> {
    for case in cases.lines() {
        let mut fields = case.split('@');
        let code = fields.next().ok_or("no code")?.parse::<u8>()?;
        let text = fields.next().ok_or("no text")?;
        let words = fields.next().ok_or("no words")?;
        let job = bytes_of(alloc, fields.next().unwrap_or(JOB))?;
        let hull = bytes_of(alloc, fields.next().unwrap_or(BARGE))?;
        let mut shelf = shelf_of(alloc, job, hull, Vec::new(alloc))?;
        if !answers(alloc, &mut shelf, words, code, text)? {
            return Ok(Some(case));
        }
    }
    Ok(None)
}

fn tables_answer(
    alloc: Global,
    hull: Vec<u8>,
    fails: Vec<u64>,
    code: u8,
    text: &str,
) -> Result<bool, Fail> {
    let mut shelf = shelf_of(alloc, bytes_of(alloc, JOB)?, hull, fails)?;
    answers(alloc, &mut shelf, "bonjean|job.toml|hull.csv", code, text)
}

#[test]
fn long_files_are_refused(rt: HostRuntime) -> Result<(), Fail> {
    let alloc = rt.alloc();
    let long = vec![in alloc; b'0'; 1_048_577]?;
    assert!(rt; tables_answer(alloc, long, Vec::new(alloc), 3, "refused long offsets/")?);
    let long = vec![in alloc; b'0'; 1_048_577]?;
    let mut shelf = shelf_of(alloc, long, Vec::new(alloc), Vec::new(alloc))?;
    assert!(rt;
        answers(
            alloc,
            &mut shelf,
            "hydro|job.toml|hull.csv",
            3,
            "refused long job/"
        )?
    );
    Ok(())
}

#[test]
fn a_failing_fetch_names_its_file(rt: HostRuntime) -> Result<(), Fail> {
    let alloc = rt.alloc();
    let hull = bytes_of(alloc, BARGE)?;
    assert!(rt; tables_answer(alloc, hull, vec![in alloc; 1]?, 4, "fault read job/")?);
    let hull = bytes_of(alloc, BARGE)?;
    assert!(rt; tables_answer(alloc, hull, vec![in alloc; 2]?, 4, "fault read offsets/")?);
    Ok(())
}

#[test]
fn a_full_sink_has_a_part(rt: HostRuntime) -> Result<(), Fail> {
    let alloc = rt.alloc();
    let words = words_of(alloc, "section|hull.csv|1|5000")?;
    let hull = bytes_of(alloc, BARGE)?;
    let mut shelf = shelf_of(alloc, Vec::new(alloc), hull, Vec::new(alloc))?;
    let mut out = MemSink::new(alloc, 60, 25, Vec::new(alloc))?;
    assert_eq!(rt;
        run(alloc, &words, &mut shelf, &mut out),
        Status::WriteFault
    );
    let (part, _) = REPORT.split_at(60);
    assert_eq!(rt; out.taken(), bytes_of(alloc, part)?.as_slice());
    Ok(())
}

// The top call at stores that never fail: neither a read fault nor a write fault can come.
fn run_surely(alloc: Global, words: &[String], shelf: &mut SureShelf, out: &mut SureSink) -> Status
    ensures no_read_fault { result ≢ Status.ReadFault }
    ensures no_write_fault { result ≢ Status.WriteFault }
{
    run(alloc, words, shelf, out)
}

#[test]
fn sure_stores_give_the_same_report(rt: HostRuntime) -> Result<(), Fail> {
    let alloc = rt.alloc();
    let words = words_of(alloc, "section|hull.csv|1|5000")?;
    let hull = bytes_of(alloc, BARGE)?;
    let mut shelf = SureShelf::of(files_of(alloc, Vec::new(alloc), hull)?);
    let mut out = SureSink::new(alloc, 4096)?;
    assert_eq!(rt;
        run_surely(alloc, &words, &mut shelf, &mut out),
        Status::Done
    );
    assert_eq!(rt; out.taken(), bytes_of(alloc, REPORT)?.as_slice());
    Ok(())
}
