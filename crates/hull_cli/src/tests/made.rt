// Made ships.
use super::words_of;
use crate::run;
use desk::{MemShelf, MemSink};
use std::alloc::Global;
use std::str;
use std::test::Fail;

// The exit code of a made ship's report, and whether it is what was written before.
fn made(alloc: Global, words: &str, before: &mut MemSink) -> Result<(u8, bool), Fail> {
    let words = words_of(alloc, words)?;
    let mut shelf = MemShelf::of(Vec::new(alloc), Vec::new(alloc));
    let mut out = MemSink::new(alloc, 4096, 1024, Vec::new(alloc))?;
    let status = run(alloc, &words, &mut shelf, &mut out);
    let same = out.taken() == before.taken();
    *before = out;
    Ok((status.code(), same))
}

#[test]
fn a_made_ship_has_the_same_report_again(rt: HostRuntime) -> Result<(), Fail> {
    let alloc = rt.alloc();
    let mut out = MemSink::new(alloc, 4096, 1024, Vec::new(alloc))?;
    let (code, _) = made(alloc, "make|1", &mut out)?;
    assert!(rt; code <= 2);
    assert!(rt; str::from_utf8(out.taken())?.starts_with("hullcert 1 make\nhull 41 656\n"));
    assert_eq!(rt; made(alloc, "make|1", &mut out)?, (code, true));
    Ok(())
}

#[test]
fn the_last_number_has_a_ship_of_its_own(rt: HostRuntime) -> Result<(), Fail> {
    let alloc = rt.alloc();
    let mut out = MemSink::new(alloc, 4096, 1024, Vec::new(alloc))?;
    made(alloc, "make|1", &mut out)?;
    let (code, same) = made(alloc, "make|4294967295", &mut out)?;
    assert!(rt; code <= 2 && !same);
    assert_eq!(rt; made(alloc, "make|0000000001", &mut out)?.1, false);
    assert_eq!(rt; made(alloc, "make|1", &mut out)?.1, true);
    Ok(())
}
