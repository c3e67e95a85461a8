// Curves, verdicts, damage cases and floodable lengths of the barge, each alone and all together: words that stand in their reports, and the exit code.
use super::{BARGE, bytes_of, shelf_of, words_of};
use crate::run;
use desk::MemSink;
use std::alloc::Global;
use std::str;
use std::test::Fail;

const CASES: &str = "\
0@cross@hull 3 6/body 120000000000000/cross 10250000 0 5120000 5120000 [@density = 1025/displacements = [10250000, 20500000]/\n\
0@cross@/cross 10250000 90 0 0 [4.99999@density = 1025/displacements = [10250000, 20500000]/\n\
0@cross@/cross 20500000 30 20480000 20480000 [2.49999@density = 1025/displacements = [10250000, 20500000]/\n\
0@cross@/end 186/@density = 1025/displacements = [10250000, 20500000]/\n\
0@stability@load 10250000 [50.000000,50.000000] [7.000000,7.000000]/@density = 1025/item = [{name = 'a', mass = 10250000, x = 50000, z = 7000}]/\n\
0@stability@upright 5120000 5120000 [2.@density = 1025/item = [{name = 'a', mass = 10250000, x = 50000, z = 7000}]/\n\
0@stability@mark C6 holds/verdict pass/end 104/@density = 1025/item = [{name = 'a', mass = 10250000, x = 50000, z = 7000}]/\n\
1@stability@verdict fail C3 leak 1 27 [0.@density = 1025/item = [{name = 'a', mass = 10250000, x = 50000, z = 7000}]/opening = [{name = 'o', y = 10000, z = 10000}]/\n\
1@stability@verdict fail C6 interval 0 [0.06666@density = 1025/item = [{name = 'a', mass = 10250000, x = 50000, z = 9100}]/\n\
1@stability@verdict fail C5 pair @density = 1025/item = [{name = 'a', mass = 16400000, x = 50000, z = 6300}]/\n\
3@stability@refused load nomass/@density = 1025/\n\
3@stability@refused load nomass/@density = 1025/item = [{name = 'a', mass = 0, x = 0, z = 0}]/\n\
3@stability@refused load massrange 137438953472/@density = 1025/item = [{name = 'a', mass = 68719476736, x = 0, z = 0}, {name = 'b', mass = 68719476736, x = 0, z = 0}]/\n\
3@stability@refused heavy 20500001 120000000000000/@density = 1025/item = [{name = 'a', mass = 20500001, x = 0, z = 0}]/\n\
0@damage@load 10250000 [50.000000,50.000000] [9.100000,9.100000]/damage 1 3792592 3792593 8006584 8006585/damage 2 8006584 8006585 3792592 3792593/end 7/@density = 1025/item = [{name = 'a', mass = 10250000, x = 50000, z = 9100}]/compartment = [{name = 'b', from = 90000, to = 100000, permeability = 1000}, {name = 'c', from = 0, to = 10000, permeability = 1000}]/damage = [{name = 'd0', flooded = ['b']}, {name = 'd1', flooded = ['c']}]/\n\
0@damage@/damage 1 5119999 5120001 5119999 5120001/@density = 1025/item = [{name = 'a', mass = 10250000, x = 50000, z = 9100}]/compartment = [{name = 'b', from = 90000, to = 100000, permeability = 0}]/damage = [{name = 'd0', flooded = ['b']}]/\n\
0@damage@/damage 1 5119999 5120001 5119999 5120001/@density = 1025/item = [{name = 'a', mass = 10250000, x = 50000, z = 9100}]/damage = [{name = 'd0', flooded = []}]/\n\
0@damage@/damage 1 sinks [8000.000000,8000.000000]/@density = 1025/item = [{name = 'a', mass = 10250000, x = 50000, z = 9100}]/compartment = [{name = 'b', from = 0, to = 60000, permeability = 1000}]/damage = [{name = 'd0', flooded = ['b']}]/\n\
0@damage@/damage 1 nostart fore/@density = 1025/item = [{name = 'a', mass = 10250000, x = 200000, z = 9100}]/damage = [{name = 'd0', flooded = []}]/\n\
3@damage@refused load nomass/@density = 1025/damage = [{name = 'd0', flooded = []}]/\n\
0@floodable@/safe 50000 49600 10158729 10158731 10158729 10158731/next 50000 49700 over 0 10178926 10178927 10178926 10178927/end 7/@density = 1025/item = [{name = 'a', mass = 10250000, x = 50000, z = 9100}]/floodable = {centres = [50000], step = 100, permeability = 1000}/\n\
0@floodable@/safe 200 0 5119999 5120001 5119999 5120001/next 200 500 endofship/@density = 1025/item = [{name = 'a', mass = 10250000, x = 50000, z = 9100}]/floodable = {centres = [200], step = 500, permeability = 1000}/\n\
0@floodable@/safe 50000 -/next 50000 0 over 0 10190048 10190050 10190048 10190050/safe 20000 -/@density = 1025/item = [{name = 'a', mass = 20400000, x = 50000, z = 9100}]/floodable = {centres = [50000, 20000], step = 100, permeability = 1000}/\n\
0@floodable@/load 10250000 [50.000000,50.000000] [9.100000,9.100000]/end 5/@density = 1025/item = [{name = 'a', mass = 10250000, x = 50000, z = 9100}]/\n\
3@floodable@refused load nomass/@density = 1025/\n\
0@all@hullcert 1 all/hull 3 6/body 120000000000000/hydro 5000 [@density = 1025/drafts = [5000]/displacements = [10250000]/item = [{name = 'a', mass = 10250000, x = 50000, z = 7000}]/damage = [{name = 'd0', flooded = []}]/floodable = {centres = [50000], step = 100, permeability = 1000}/\n\
0@all@/section 2 100000 5000 [100.000000,100.000000] [250.000000000,250.000000000]/cross 10250000 0 5120000 5120000 [@density = 1025/drafts = [5000]/displacements = [10250000]/item = [{name = 'a', mass = 10250000, x = 50000, z = 7000}]/damage = [{name = 'd0', flooded = []}]/floodable = {centres = [50000], step = 100, permeability = 1000}/\n\
0@all@/load 10250000 [50.000000,50.000000] [7.000000,7.000000]/upright 5120000 5120000 [2.@density = 1025/drafts = [5000]/displacements = [10250000]/item = [{name = 'a', mass = 10250000, x = 50000, z = 7000}]/damage = [{name = 'd0', flooded = []}]/floodable = {centres = [50000], step = 100, permeability = 1000}/\n\
0@all@/mark C6 holds/verdict pass/damage 1 5119999 5120001 5119999 5120001/safe 50000 @density = 1025/drafts = [5000]/displacements = [10250000]/item = [{name = 'a', mass = 10250000, x = 50000, z = 7000}]/damage = [{name = 'd0', flooded = []}]/floodable = {centres = [50000], step = 100, permeability = 1000}/\n\
0@all@/end 202/@density = 1025/drafts = [5000]/displacements = [10250000]/item = [{name = 'a', mass = 10250000, x = 50000, z = 7000}]/damage = [{name = 'd0', flooded = []}]/floodable = {centres = [50000], step = 100, permeability = 1000}/\n\
1@all@/body 120000000000000/load 10250000 [50.000000,50.000000] [9.100000,9.100000]/upright 5120000 5120000 [2.@density = 1025/item = [{name = 'a', mass = 10250000, x = 50000, z = 9100}]/\n\
1@all@/verdict fail C6 interval 0 [0.06666@density = 1025/item = [{name = 'a', mass = 10250000, x = 50000, z = 9100}]/\n\
3@all@refused load nomass/@density = 1025/displacements = [20500001]/\n\
3@all@refused heavy 20500002 120000000000000/@density = 1025/displacements = [20500001]/item = [{name = 'a', mass = 20500002, x = 0, z = 0}]/\n\
3@all@refused heavy 20500001 120000000000000/@density = 1025/displacements = [10250000, 20500001, 20500003]/item = [{name = 'a', mass = 10250000, x = 50000, z = 7000}]/\n\
";

// With the item off the centreplane.
const SIDES: &str = "\
0@stability@hullcert 2 stability/hull 3 6/body 120000000000000/load 10250000 [50.000000,50.000000] [0.500000,0.500000] [7.000000,7.000000]/upright 5120000 5120000 [2.@density = 1025/item = [{name = 'a', mass = 10250000, x = 50000, y = 500, z = 7000}]/\n\
0@stability@/arm 0 5120000 5120000 [0.499999,0.500001] [0.000000,0.000000] [-0.500001,-0.499999] [0.000000,0.000000]/arm 1 @density = 1025/item = [{name = 'a', mass = 10250000, x = 50000, y = 500, z = 7000}]/\n\
0@stability@verdict pass/end 104/@density = 1025/item = [{name = 'a', mass = 10250000, x = 50000, y = 500, z = 7000}]/\n\
1@stability@verdict fail C1 starboard interval 30 [-@density = 1025/item = [{name = 'a', mass = 10250000, x = 50000, y = 1000, z = 7000}]/\n\
1@stability@verdict fail C1 port interval 30 [-@density = 1025/item = [{name = 'a', mass = 10250000, x = 50000, y = -1000, z = 7000}]/\n\
1@stability@verdict fail C3 port leak 1 27 [0.@density = 1025/item = [{name = 'a', mass = 10250000, x = 50000, z = 7000}]/opening = [{name = 'o', y = 10000, z = 10000}]/\n\
0@all@/load 10250000 [50.000000,50.000000] [-0.500000,-0.500000] [7.000000,7.000000]/upright @density = 1025/item = [{name = 'a', mass = 10250000, x = 50000, y = -500, z = 7000}]/\n\
0@damage@hullcert 2 damage/hull 3 6/body 120000000000000/load 10250000 [50.000000,50.000000] [0.500000,0.500000] [9.100000,9.100000]/damage 1 5119999 5120001 5119999 5120001/end 6/@density = 1025/item = [{name = 'a', mass = 10250000, x = 50000, y = 500, z = 9100}]/damage = [{name = 'd0', flooded = []}]/\n\
0@hydro@hullcert 2 hydro/hull 3 6/body 120000000000000/end 4/@density = 1025/\n\
";

// Whether a run on a job of this version ends with the code and has written this part.
fn has(
    alloc: Global,
    version: u32,
    command: &str,
    job: &str,
    code: u8,
    part: &str,
) -> Result<bool, Fail> {
    let job = format!(in alloc; "version = {version}/length_bp = 100000/{job}")?;
    let job = bytes_of(alloc, job.as_str())?;
    let mut shelf = shelf_of(alloc, job, bytes_of(alloc, BARGE)?, Vec::new(alloc))?;
    let mut out = MemSink::new(alloc, 32768, 1024, Vec::new(alloc))?;
    let words = format!(in alloc; "{command}|job.toml|hull.csv")?;
    let words = words_of(alloc, words.as_str())?;
    let status = run(alloc, &words, &mut shelf, &mut out);
    let wanted = bytes_of(alloc, part)?;
    let text = str::from_utf8(out.taken())?;
    Ok(status.code() == code && text.contains(str::from_utf8(&wanted)?))
}

// The first case that is answered otherwise: its exit code, command, a part of the report, and the job.
fn wrong_report(alloc: Global, version: u32, cases: &str) -> Result<Option<&str>, Fail> {
    for case in cases.lines() {
        let mut fields = case.split('@');
        let code = fields.next().ok_or("no code")?.parse::<u8>()?;
        let command = fields.next().ok_or("no command")?;
        let part = fields.next().ok_or("no part")?;
        let job = fields.next().ok_or("no job")?;
        if !has(alloc, version, command, job, code, part)? {
            return Ok(Some(case));
        }
    }
    Ok(None)
}

#[test]
fn each_report_has_its_part(rt: HostRuntime) -> Result<(), Fail> {
    assert_eq!(rt; wrong_report(rt.alloc(), 1, CASES)?, None);
    Ok(())
}

#[test]
fn each_report_of_version_2_has_its_part(rt: HostRuntime) -> Result<(), Fail> {
    assert_eq!(rt; wrong_report(rt.alloc(), 2, SIDES)?, None);
    Ok(())
}
