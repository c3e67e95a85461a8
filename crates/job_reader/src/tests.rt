mod jobs;

use crate::{Damage, Job, JobFault, Key, Name, read_job};
use hull_model::Slab;
use jobs::JOBS;
use std::alloc::Global;
use std::test::Fail;

const HEAD: &str = "version = 1;density = 1025;length_bp = 100000;";

const HEAD_2: &str = "version = 2;density = 1025;length_bp = 100000;";

const CARGO: &str = "version = 1\ndensity = 1025\nlength_bp = 100000\n\
drafts = [2000, 4000, 6000, 8000]\ndisplacements = [6000000, 8380000]\n\
item = [\n\
{name = 'steel', mass = 2400000, x = 47000, z = 6800},\n\
{name = 'engine', mass = 300000, x = 14000, z = 4500},\n\
{name = 'house', mass = 250000, x = 12000, z = 15000},\n\
{name = 'hold1', mass = 1300000, x = 78000, z = 6200},\n\
{name = 'hold2', mass = 1500000, x = 58000, z = 6000},\n\
{name = 'hold3', mass = 1500000, x = 38000, z = 6000},\n\
{name = 'fuel_p', mass = 120000, x = 24000, z = 3500, free_surface = 100000},\n\
{name = 'fuel_s', mass = 120000, x = 24000, z = 3500, free_surface = 100000},\n\
{name = 'fresh', mass = 60000, x = 8000, z = 8000, free_surface = 20000},\n\
{name = 'stores', mass = 20000, x = 90000, z = 11000},\n\
{name = 'ballast', mass = 800000, x = 52000, z = 700},\n\
{name = 'crew', mass = 10000, x = 12000, z = 13000}]\n\
opening = [{name = 'vent', y = 6000, z = 13500}, {name = 'door', y = 3000, z = 14500}]\n\
compartment = [\n\
{name = 'forehold', from = 70000, to = 85000, permeability = 700},\n\
{name = 'midhold', from = 50000, to = 66000, permeability = 700},\n\
{name = 'engineroom', from = 10000, to = 20000, permeability = 850}]\n\
damage = [{name = 'bow', flooded = ['forehold']}, {name = 'both', flooded = ['engineroom', 'midhold']}]\n\
floodable = {centres = [30000, 60000], step = 1000, permeability = 800}\n";

// The lines that a job begins with, and the rest of it, as the table of jobs has them.
fn parted(job: &str) -> (&str, &str) {
    if let Some(rest) = job.strip_prefix('!') {
        return ("", rest);
    }
    match job.strip_prefix("2:") {
        Some(rest) => (HEAD_2, rest),
        None => (HEAD, job),
    }
}

// The bytes of a job as the table of jobs has it.
fn bytes_of(alloc: Global, job: &str) -> Result<Vec<u8>, Fail> {
    let (head, rest) = parted(job);
    let mut bytes = Vec::new(alloc);
    bytes.extend_from_slice(head.as_bytes())?;
    bytes.extend_from_slice(rest.as_bytes())?;
    for byte in &mut bytes {
        if *byte == b';' {
            *byte = b'\n';
        }
    }
    Ok(bytes)
}

fn answer_of(alloc: Global, job: &str) -> Result<Result<Job, JobFault>, Fail> {
    let bytes = bytes_of(alloc, job)?;
    if bytes.len() > 65536 {
        return Err("a long job".into());
    }
    Ok(read_job(alloc, &bytes))
}

fn placed(alloc: Global, word: &str, key: Key, entry: u32) -> Result<String, Fail> {
    let text = match key.table() {
        Key::Top => format!(in alloc; "{word} {} {entry}", key.word())?,
        table => format!(in alloc; "{word} {}.{} {entry}", table.word(), key.word())?,
    };
    Ok(text)
}

// What reading answers, in words.
fn words_of(alloc: Global, answer: &Result<Job, JobFault>) -> Result<String, Fail> {
    let text = match answer {
        Ok(_) => String::from_str(alloc, "accepted")?,
        Err(JobFault::Text) => String::from_str(alloc, "text")?,
        Err(JobFault::Version) => String::from_str(alloc, "version")?,
        Err(JobFault::Memory) => String::from_str(alloc, "memory")?,
        Err(JobFault::Unknown { key, entry }) => placed(alloc, "unknown", *key, *entry)?,
        Err(JobFault::Missing { key, entry }) => placed(alloc, "missing", *key, *entry)?,
        Err(JobFault::Kind { key, entry }) => placed(alloc, "kind", *key, *entry)?,
        Err(JobFault::Range { key, entry }) => placed(alloc, "range", *key, *entry)?,
        Err(JobFault::Many { key, entry }) => placed(alloc, "many", *key, *entry)?,
        Err(JobFault::Name { key, entry }) => placed(alloc, "name", *key, *entry)?,
        Err(JobFault::Twice { key, entry }) => placed(alloc, "twice", *key, *entry)?,
        Err(JobFault::NotNamed { entry }) => format!(in alloc; "notnamed {entry}")?,
        Err(JobFault::Overlap { first, second }) => format!(in alloc; "overlap {first} {second}")?,
    };
    Ok(text)
}

#[test]
fn each_job_has_its_first_fault(rt: HostRuntime) -> Result<(), Fail> {
    let mut count: u32 = 0;
    for line in JOBS.lines() {
        let (want, job) = line.split_once('|').ok_or("no bar")?;
        let words = words_of(rt.alloc(), &answer_of(rt.alloc(), job)?)?;
        assert_eq!(rt; words.as_str(), want, "{job}");
        count = count.saturating_add(1);
    }
    assert_eq!(rt; count, 258);
    Ok(())
}

#[test]
fn the_cargo_ship_is_read_whole(rt: HostRuntime) -> Result<(), Fail> {
    let job = read_job(rt.alloc(), CARGO.as_bytes()).map_err(|_| "refused")?;
    assert_eq!(rt;
        (
            job.version,
            job.water.density,
            job.water.length_bp,
            job.margin
        ),
        (1, 1025, 100000, 76)
    );
    assert_eq!(rt; job.drafts.as_slice(), [2000, 4000, 6000, 8000].as_slice());
    assert_eq!(rt; job.masses.as_slice(), [6000000, 8380000].as_slice());
    let mut mass: u64 = 0;
    let mut free_surface: u64 = 0;
    let mut along: i64 = 0;
    let mut height: i64 = 0;
    for item in job.items.as_slice() {
        mass = mass.saturating_add(item.mass);
        free_surface = free_surface.saturating_add(item.free_surface);
        along = along.saturating_add(item.x.saturating_mul(item.mass as i64));
        height = height.saturating_add(item.z.saturating_mul(item.mass as i64));
        assert_eq!(rt; item.y, 0);
    }
    assert_eq!(rt; (mass, free_surface), (8380000, 220000));
    assert_eq!(rt; (along, height), (415160000000, 49710000000));
    assert_eq!(rt; job.openings.as_slice().len(), 2);
    if let [vent, door] = job.openings.as_slice() {
        assert_eq!(rt;
            (vent.y, vent.z, door.y, door.z),
            (6000, 13500, 3000, 14500)
        );
    }
    let midhold = Name::of("midhold").ok_or("no name")?;
    let slab = job.compartments.get(&midhold).ok_or("no midhold")?;
    assert_eq!(rt;
        (slab.aft, slab.fore, slab.permeability),
        (50000, 66000, 700)
    );
    assert_eq!(rt; job.damages.as_slice().len(), 2);
    if let [_, both] = job.damages.as_slice() {
        let aft: i64 = both
            .slabs
            .as_slice()
            .iter()
            .map(|slab| slab.aft)
            .max()
            .unwrap_or(0);
        assert_eq!(rt; (both.slabs.as_slice().len(), aft), (2, 50000));
    }
    let plan = job.floodable.ok_or("no plan")?;
    assert_eq!(rt; plan.centres.as_slice(), [30000, 60000].as_slice());
    assert_eq!(rt; (plan.step, plan.permeability), (1000, 800));
    Ok(())
}

#[test]
fn items_of_version_2_stand_off_the_centreplane(rt: HostRuntime) -> Result<(), Fail> {
    let text = "version = 2\ndensity = 1025\nlength_bp = 100000\nitem = [\
{name = 'port', mass = 1, x = 2, y = -65535, z = 3},\
{name = 'middle', mass = 4, x = 5, z = 6, free_surface = 7},\
{y = 65535, z = 8, x = 9, mass = 10, name = 'star'}]\n";
    let job = read_job(rt.alloc(), text.as_bytes()).map_err(|_| "refused")?;
    assert_eq!(rt; (job.version, job.items.as_slice().len()), (2, 3));
    if let [port, middle, star] = job.items.as_slice() {
        assert_eq!(rt; (port.y, middle.y, star.y), (-65535, 0, 65535));
        assert_eq!(rt; (port.z, middle.free_surface, star.x), (3, 7, 9));
    }
    Ok(())
}

#[test]
fn a_case_keeps_its_slabs_apart(rt: HostRuntime) -> Result<(), Fail> {
    let first = Slab::new(0, 10, 850).ok_or("no slab")?;
    let touching = Slab::new(10, 20, 850).ok_or("no slab")?;
    let meeting = Slab::new(19, 30, 0).ok_or("no slab")?;
    assert!(rt; Damage::of(vec![in rt.alloc(); first, touching]?).is_some());
    assert!(rt; Damage::of(vec![in rt.alloc(); first, meeting]?).is_some());
    assert!(rt; Damage::of(vec![in rt.alloc(); first, touching, meeting]?).is_none());
    assert!(rt; Damage::of(Vec::new(rt.alloc())).is_some());
    Ok(())
}

// `count` slabs of 2 mm, one after another.
fn row_of_slabs(alloc: Global, count: u8) -> Result<Vec<Slab>, Fail> {
    let mut slabs = Vec::new(alloc);
    for number in 0..count {
        let aft = 2 * i64::from(number);
        slabs.push(Slab::new(aft, aft + 2, 850).ok_or("no slab")?)?;
    }
    Ok(slabs)
}

#[test]
fn a_case_floods_at_most_64_slabs(rt: HostRuntime) -> Result<(), Fail> {
    assert!(rt; Damage::of(row_of_slabs(rt.alloc(), 64)?).is_some());
    assert!(rt; Damage::of(row_of_slabs(rt.alloc(), 65)?).is_none());
    Ok(())
}
