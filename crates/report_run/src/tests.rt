// Files, the lines in place of a report, and texts that are put, with the stores in memory.
use crate::{File, Refusal, Status, Stop, put_all, read_hull, read_job_file};
use desk::{MemShelf, MemSink};
use loading_sheet::LoadFault;
use std::alloc::{AllocError, Global};
use std::test::Fail;

const JOB: &str = "version = 1\ndensity = 1025\nlength_bp = 100000\n";

const BARGE: &str = "0,10000,0\n0,10000,10000\n50000,10000,0\n50000,10000,10000\n\
100000,10000,0\n100000,10000,10000\n";

fn shelf_of(alloc: Global) -> Result<MemShelf, AllocError> {
    let mut files = Vec::new(alloc);
    files.push((
        String::from_str(alloc, "job.toml")?,
        Vec::from_slice(alloc, JOB.as_bytes())?,
    ))?;
    files.push((
        String::from_str(alloc, "hull.csv")?,
        Vec::from_slice(alloc, BARGE.as_bytes())?,
    ))?;
    Ok(MemShelf::of(files, Vec::new(alloc)))
}

// The line that is written where a run stops so.
fn line_of(alloc: Global, stop: Option<Stop>) -> Result<Vec<u8>, Fail> {
    match stop {
        Some(Stop::Refused(refusal)) => Ok(refusal.text(alloc)?),
        Some(Stop::Unread(file)) => Ok(file.unread(alloc)?),
        Some(Stop::NoMemory) => Err("no memory".into()),
        None => Err("no stop".into()),
    }
}

#[test]
fn both_files_are_read(rt: HostRuntime) -> Result<(), Fail> {
    let alloc = rt.alloc();
    let mut shelf = shelf_of(alloc)?;
    let job = read_job_file(alloc, &mut shelf, "job.toml").map_err(|_| "no job")?;
    assert_eq!(rt; (job.water.density, job.water.length_bp), (1025, 100000));
    let hull = read_hull(alloc, &mut shelf, "hull.csv").map_err(|_| "no hull")?;
    assert_eq!(rt; hull.stations().len(), 3);
    Ok(())
}

#[test]
fn each_stop_has_its_line(rt: HostRuntime) -> Result<(), Fail> {
    let alloc = rt.alloc();
    let mut shelf = shelf_of(alloc)?;
    let exchanged = read_job_file(alloc, &mut shelf, "hull.csv").err();
    assert_eq!(rt;
        line_of(alloc, exchanged)?.as_slice(),
        b"refused job text\n".as_slice()
    );
    let exchanged = read_hull(alloc, &mut shelf, "job.toml").err();
    assert_eq!(rt;
        line_of(alloc, exchanged)?.as_slice(),
        b"refused offsets columns 1\n".as_slice()
    );
    let absent = read_hull(alloc, &mut shelf, "ship.csv").err();
    assert_eq!(rt;
        line_of(alloc, absent)?.as_slice(),
        b"fault read offsets\n".as_slice()
    );
    let long = Some(Stop::Refused(Refusal::Long(File::Job)));
    assert_eq!(rt;
        line_of(alloc, long)?.as_slice(),
        b"refused long job\n".as_slice()
    );
    let fault = LoadFault::MassRange { sum: 137438953472 };
    let load = Some(Stop::Refused(Refusal::Load(fault)));
    assert_eq!(rt;
        line_of(alloc, load)?.as_slice(),
        b"refused load massrange 137438953472\n".as_slice()
    );
    let heavy = Some(Stop::Refused(Refusal::Heavy {
        mass: 20500001,
        six: 120000000000000,
    }));
    assert_eq!(rt;
        line_of(alloc, heavy)?.as_slice(),
        b"refused heavy 20500001 120000000000000\n".as_slice()
    );
    Ok(())
}

#[test]
fn a_text_is_put_until_all_is_taken_or_a_put_fails(rt: HostRuntime) -> Result<(), Fail> {
    let alloc = rt.alloc();
    let mut out = MemSink::new(alloc, 10, 3, Vec::new(alloc))?;
    assert!(rt; put_all(&mut out, b"refused\n"));
    assert_eq!(rt; out.taken(), b"refused\n".as_slice());
    assert!(rt; !put_all(&mut out, b"more"));
    assert_eq!(rt; out.taken(), b"refused\nmo".as_slice());
    Ok(())
}

// The third put fails, so that two puts have taken three bytes each.
#[test]
fn each_put_is_handed_all_that_is_not_taken(rt: HostRuntime) -> Result<(), Fail> {
    let alloc = rt.alloc();
    let mut out = MemSink::new(alloc, 16, 3, vec![in alloc; 3]?)?;
    assert!(rt; !put_all(&mut out, b"refused\n"));
    assert_eq!(rt; out.taken(), b"refuse".as_slice());
    Ok(())
}

#[test]
fn each_status_has_its_code(rt: HostRuntime) -> Result<(), Fail> {
    for (status, code) in [
        (Status::Done, 0),
        (Status::Fails, 1),
        (Status::Undecided, 2),
        (Status::Refused, 3),
        (Status::ReadFault, 4),
        (Status::WriteFault, 5),
        (Status::NoMemory, 6),
    ] {
        assert_eq!(rt; status.code(), code);
    }
    Ok(())
}
