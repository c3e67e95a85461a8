// Calls that fail, memory that is refused, and input at its limits.
use super::{BARGE, JOB, REPORT, answers, bytes_of, shelf_of, words_of};
use crate::{Status, run};
use desk::{MemShelf, MemSink, Shelf, ShelfFault, StepSink};
use std::alloc::{AllocError, Global};
use std::str;
use std::test::Fail;

const CROSS: &str = "cross|job.toml|hull.csv";

const LOADS: &str = "version = 1/density = 1025/length_bp = 100000/displacements = [10250000]/";

// The barge with a displacement, where these fetches fail.
fn barge(alloc: Global, fails: Vec<u64>) -> Result<MemShelf, AllocError> {
    shelf_of(
        alloc,
        bytes_of(alloc, LOADS)?,
        bytes_of(alloc, BARGE)?,
        fails,
    )
}

#[test]
fn each_fetch_that_fails_names_its_file(rt: HostRuntime) -> Result<(), Fail> {
    let alloc = rt.alloc();
    let mut shelf = barge(alloc, vec![in alloc; 1]?)?;
    assert!(rt; answers(alloc, &mut shelf, CROSS, 4, "fault read job/")?);
    let mut shelf = barge(alloc, vec![in alloc; 2]?)?;
    assert!(rt; answers(alloc, &mut shelf, CROSS, 4, "fault read offsets/")?);
    Ok(())
}

// The bytes that a sink which takes 25 at once has, where the put of this number fails; none fails where it is 0.
fn taken_before(alloc: Global, put: u64) -> Result<(Status, Vec<u8>), Fail> {
    let mut shelf = barge(alloc, Vec::new(alloc))?;
    let mut out = MemSink::new(alloc, 65536, 25, vec![in alloc; put]?)?;
    let status = run(alloc, &words_of(alloc, CROSS)?, &mut shelf, &mut out);
    Ok((status, out.taken().to_vec(alloc)?))
}

// Whether all that stands before the failing put was taken.
fn is_cut_at(alloc: Global, whole: &[u8], put: u64) -> Result<bool, Fail> {
    let (status, part) = taken_before(alloc, put)?;
    let whole_pieces = part.len() % 25 == 0 && (part.len() / 25) as u64 == put.saturating_sub(1);
    Ok(status == Status::WriteFault && whole_pieces && whole.starts_with(&part))
}

#[test]
fn each_put_that_fails_leaves_what_was_taken(rt: HostRuntime) -> Result<(), Fail> {
    let alloc = rt.alloc();
    let (status, whole) = taken_before(alloc, 0)?;
    assert_eq!(rt; status, Status::Done);
    for put in 1..21 {
        assert!(rt; is_cut_at(alloc, &whole, put)?);
    }
    Ok(())
}

// A shelf that gives one file under each name, tells nothing, and has no memory at the fetch of a number.
#[derive(Drop)]
struct ShortShelf {
    file: Vec<u8>,
    short: u64,
    fetches: u64,
}

impl Shelf for ShortShelf {
    ghost use Rattle.std.specs.Prelude.{None};

    ghost held = { λ s name. None };

    ghost faults = { λ s name. 0 };

    ghost taken = { λ s name. 0 };

    fn fetch(&mut self, alloc: Global, _name: &str, most: usize) -> Result<Vec<u8>, ShelfFault> {
        self.fetches = self.fetches.saturating_add(1);
        if self.fetches == self.short || self.file.len() > most {
            return Err(ShelfFault::Memory);
        }
        match self.file.to_vec(alloc) {
            Ok(copy) => Ok(copy),
            Err(_) => Err(ShelfFault::Memory),
        }
    }
}

#[test]
fn want_of_memory_at_a_fetch_writes_nothing(rt: HostRuntime) -> Result<(), Fail> {
    let alloc = rt.alloc();
    for short in 1..3 {
        let mut shelf = ShortShelf {
            file: bytes_of(alloc, LOADS)?,
            short,
            fetches: 0,
        };
        let mut out = MemSink::new(alloc, 65536, 25, Vec::new(alloc))?;
        let status = run(alloc, &words_of(alloc, CROSS)?, &mut shelf, &mut out);
        assert_eq!(rt; status, Status::NoMemory);
        assert!(rt; out.taken().is_empty());
    }
    Ok(())
}

// What a sink that takes so much in each of its turns has of the report on a section, and with which status.
fn stepped(alloc: Global, takes: Vec<usize>) -> Result<(Status, Vec<u8>), Fail> {
    if takes.is_empty() {
        return Ok((Status::Done, Vec::new(alloc)));
    }
    let hull = bytes_of(alloc, BARGE)?;
    let mut shelf = shelf_of(alloc, Vec::new(alloc), hull, Vec::new(alloc))?;
    let mut out = StepSink::new(alloc, 4096, takes)?;
    let words = words_of(alloc, "section|hull.csv|1|5000")?;
    let status = run(alloc, &words, &mut shelf, &mut out);
    Ok((status, out.taken().to_vec(alloc)?))
}

#[test]
fn a_sink_is_handed_what_it_left(rt: HostRuntime) -> Result<(), Fail> {
    let alloc = rt.alloc();
    let whole = bytes_of(alloc, REPORT)?;
    let (status, part) = stepped(alloc, vec![in alloc; 3, 1, 7, 0]?)?;
    assert_eq!(rt; status, Status::WriteFault);
    assert!(rt; part.len() == 11 && whole.starts_with(&part));
    let (status, all) = stepped(alloc, vec![in alloc; 1]?)?;
    assert_eq!(rt; status, Status::Done);
    assert_eq!(rt; all.as_slice(), whole.as_slice());
    Ok(())
}

// A job of so many bytes, by a comment at its end.
fn long_job(alloc: Global, bytes: usize) -> Result<Vec<u8>, AllocError> {
    let mut job = bytes_of(alloc, JOB)?;
    job.resize(bytes, b'#')?;
    Ok(job)
}

#[test]
fn a_job_of_1048576_bytes_is_read_and_none_longer(rt: HostRuntime) -> Result<(), Fail> {
    let alloc = rt.alloc();
    let words = words_of(alloc, "hydro|job.toml|hull.csv")?;
    for (bytes, wanted) in [(1_048_576, Status::Done), (1_048_577, Status::Refused)] {
        let job = long_job(alloc, bytes)?;
        let mut shelf = shelf_of(alloc, job, bytes_of(alloc, BARGE)?, Vec::new(alloc))?;
        let mut out = MemSink::new(alloc, 4096, 4096, Vec::new(alloc))?;
        assert_eq!(rt; run(alloc, &words, &mut shelf, &mut out), wanted);
    }
    Ok(())
}

// Stations 8321 mm apart, with points 2114 mm apart: every other one at the greatest half-breadth, the others at the
// centreplane, as the squares of a board.
fn crinkled(alloc: Global) -> Result<Vec<u8>, Fail> {
    let mut rows = Vec::new(alloc);
    for i in 0..64_u32 {
        for j in 0..32_u32 {
            let half = if i.wrapping_add(j) % 2 == 0 { 65535 } else { 0 };
            let x = i.saturating_mul(8321);
            let z = j.saturating_mul(2114);
            let row = format!(in alloc; "{x},{half},{z}\n")?;
            rows.extend_from_slice(row.as_bytes())?;
        }
    }
    Ok(rows)
}

#[test]
fn the_widest_coordinates_are_measured(rt: HostRuntime) -> Result<(), Fail> {
    let alloc = rt.alloc();
    let job = "version = 1/density = 1025/length_bp = 524287/drafts = [131071]/";
    let mut shelf = shelf_of(
        alloc,
        bytes_of(alloc, job)?,
        crinkled(alloc)?,
        Vec::new(alloc),
    )?;
    let mut out = MemSink::new(alloc, 4096, 4096, Vec::new(alloc))?;
    let words = words_of(alloc, "hydro|job.toml|hull.csv")?;
    assert_eq!(rt; run(alloc, &words, &mut shelf, &mut out), Status::Done);
    let text = str::from_utf8(out.taken())?;
    assert!(rt; text.starts_with("hullcert 1 hydro\nhull 64 2048\nbody 13506199853387640\n"));
    assert!(rt; text.contains("\nhydro 131071 [2251033.30"));
    Ok(())
}
