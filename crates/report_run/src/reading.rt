// Input files.
ghost use Rattle.std.specs.Prelude.{◌≡◌, List, ℕ, IfOk, IfErr};
ghost use Rattle.desk.specs.Causes.{NoneFell};
ghost use Rattle.offset_reader.specs.Offsets as offsets_file;
ghost use Rattle.report_run.specs.Files.{JobRead, Read};
ghost use Rattle.report_run.specs.Shelves.{Fetched, between};
ghost use Rattle.report_run.specs.Stops.{StopsFetching, StopsReading, StopsReadingJob};

use crate::stop::{File, Refusal, Stop};
use desk::{Shelf, ShelfFault};
use hull_model::Hull;
use job_reader::{Job, JobFault, read_job};
use offset_reader::{OffsetFault, read_offsets};
use std::alloc::Global;

/// The most bytes of an input file.
const MOST_BYTES: usize = 1_048_576;

/// The job of the job file of this name. Stops where the file has more than 1048576 bytes, has a fault or can't be read,
/// and for want of memory; what is held stays as it is.
pub fn read_job_file<S: Shelf>(alloc: Global, shelf: &mut S, name: &str) -> Result<Job, Stop>
    ensures read { IfOk result (JobRead (between S.held S.faults S.taken shelf.old shelf.new) name.now) }
    ensures stop { IfErr result (StopsReadingJob (between S.held S.faults S.taken shelf.old shelf.new) name.now) }
    ensures same { (n : List ℕ) → S.held shelf.new n ≡ S.held shelf.old n }
    ensures faults_later { NoneFell (S.faults shelf.old) (S.faults shelf.new) }
    ensures taken_later { NoneFell (S.taken shelf.old) (S.taken shelf.new) }
{
    let bytes = fetched(alloc, shelf, name, File::Job)?;
    match read_job(alloc, &bytes) {
        Ok(job) => Ok(job),
        Err(fault) => match fault {
            JobFault::Memory => Err(Stop::NoMemory),
            _ => Err(Stop::Refused(Refusal::Job(fault))),
        },
    }
}

/// The hull of the offset file of this name. Stops where the file has more than 1048576 bytes, has a fault or can't be
/// read, and for want of memory; what is held stays as it is.
pub fn read_hull<S: Shelf>(alloc: Global, shelf: &mut S, offsets: &str) -> Result<Hull, Stop>
    ensures read { IfOk result (λ hull. (bytes : List ℕ)
        × Read (between S.held S.faults S.taken shelf.old shelf.new) offsets.now bytes
        × (hull ≡ offsets_file.hull_of bytes)) }
    ensures stop { IfErr result (StopsReading (between S.held S.faults S.taken shelf.old shelf.new) offsets.now) }
    ensures same { (n : List ℕ) → S.held shelf.new n ≡ S.held shelf.old n }
    ensures faults_later { NoneFell (S.faults shelf.old) (S.faults shelf.new) }
    ensures taken_later { NoneFell (S.taken shelf.old) (S.taken shelf.new) }
{
    let bytes = fetched(alloc, shelf, offsets, File::Offsets)?;
    match read_offsets(alloc, &bytes) {
        Ok(hull) => Ok(hull),
        Err(OffsetFault::Memory) => Err(Stop::NoMemory),
        Err(fault) => Err(Stop::Refused(Refusal::Offsets(fault))),
    }
}

fn fetched<S: Shelf>(alloc: Global, shelf: &mut S, name: &str, file: File) -> Result<Vec<u8>, Stop>
    ensures bytes { IfOk result (λ bytes. Fetched (between S.held S.faults S.taken shelf.old shelf.new) name.now bytes.items) }
    ensures stop { IfErr result (StopsFetching (between S.held S.faults S.taken shelf.old shelf.new) name.now file) }
    ensures same { (n : List ℕ) → S.held shelf.new n ≡ S.held shelf.old n }
    ensures faults_later { NoneFell (S.faults shelf.old) (S.faults shelf.new) }
    ensures taken_later { NoneFell (S.taken shelf.old) (S.taken shelf.new) }
{
    match shelf.fetch(alloc, name, MOST_BYTES) {
        Ok(bytes) => Ok(bytes),
        Err(ShelfFault::Failed) => Err(Stop::Unread(file)),
        Err(ShelfFault::TooLong) => Err(Stop::Refused(Refusal::Long(file))),
        Err(ShelfFault::Memory) => Err(Stop::NoMemory),
    }
}
