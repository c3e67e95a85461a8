// Files that are refused, each by its first fault.
use super::wrong_case;
use std::test::Fail;

const HULLS: &str = "\
3@refused offsets fewstations 0/@hydro|job.toml|hull.csv@version = 1/density = 1025/length_bp = 100000/@\n\
3@refused offsets fewstations 2/@hydro|job.toml|hull.csv@version = 1/density = 1025/length_bp = 100000/@0,1,0/0,1,9/5,1,0/5,1,9/\n\
3@refused offsets columns 2/@hydro|job.toml|hull.csv@version = 1/density = 1025/length_bp = 100000/@0,1,0/0,1/\n\
3@refused offsets number 1 2/@hydro|job.toml|hull.csv@version = 1/density = 1025/length_bp = 100000/@0,1.5,0/\n\
3@refused offsets negative 1 3/@hydro|job.toml|hull.csv@version = 1/density = 1025/length_bp = 100000/@0,1,-1/\n\
3@refused offsets range 1 2/@hydro|job.toml|hull.csv@version = 1/density = 1025/length_bp = 100000/@0,65536,0/\n\
3@refused offsets backwards 4/@hydro|job.toml|hull.csv@version = 1/density = 1025/length_bp = 100000/@0,1,0/0,1,9/5,1,0/4,1,0/\n\
3@refused offsets height 3/@hydro|job.toml|hull.csv@version = 1/density = 1025/length_bp = 100000/@0,1,0/0,2,3000/0,3,3000/0,4,6000/\n\
3@refused offsets fewpoints 3/@hydro|job.toml|hull.csv@version = 1/density = 1025/length_bp = 100000/@0,5,0/0,5,9/5,5,4/10,5,0/10,5,9/\n\
3@refused offsets toomanypoints 1/@hydro|job.toml|hull.csv@version = 1/density = 1025/length_bp = 100000/@0,1,0/0,1,1/0,1,2/0,1,3/0,1,4/0,1,5/0,1,6/0,1,7/0,1,8/0,1,9/0,1,10/0,1,11/0,1,12/0,1,13/0,1,14/0,1,15/0,1,16/0,1,17/0,1,18/0,1,19/0,1,20/0,1,21/0,1,22/0,1,23/0,1,24/0,1,25/0,1,26/0,1,27/0,1,28/0,1,29/0,1,30/0,1,31/0,1,32/5,1,0/5,1,9/9,1,0/9,1,9/\n\
3@refused offsets toomanystations 129/@hydro|job.toml|hull.csv@version = 1/density = 1025/length_bp = 100000/@0,1,0/0,1,9/1,1,0/1,1,9/2,1,0/2,1,9/3,1,0/3,1,9/4,1,0/4,1,9/5,1,0/5,1,9/6,1,0/6,1,9/7,1,0/7,1,9/8,1,0/8,1,9/9,1,0/9,1,9/10,1,0/10,1,9/11,1,0/11,1,9/12,1,0/12,1,9/13,1,0/13,1,9/14,1,0/14,1,9/15,1,0/15,1,9/16,1,0/16,1,9/17,1,0/17,1,9/18,1,0/18,1,9/19,1,0/19,1,9/20,1,0/20,1,9/21,1,0/21,1,9/22,1,0/22,1,9/23,1,0/23,1,9/24,1,0/24,1,9/25,1,0/25,1,9/26,1,0/26,1,9/27,1,0/27,1,9/28,1,0/28,1,9/29,1,0/29,1,9/30,1,0/30,1,9/31,1,0/31,1,9/32,1,0/32,1,9/33,1,0/33,1,9/34,1,0/34,1,9/35,1,0/35,1,9/36,1,0/36,1,9/37,1,0/37,1,9/38,1,0/38,1,9/39,1,0/39,1,9/40,1,0/40,1,9/41,1,0/41,1,9/42,1,0/42,1,9/43,1,0/43,1,9/44,1,0/44,1,9/45,1,0/45,1,9/46,1,0/46,1,9/47,1,0/47,1,9/48,1,0/48,1,9/49,1,0/49,1,9/50,1,0/50,1,9/51,1,0/51,1,9/52,1,0/52,1,9/53,1,0/53,1,9/54,1,0/54,1,9/55,1,0/55,1,9/56,1,0/56,1,9/57,1,0/57,1,9/58,1,0/58,1,9/59,1,0/59,1,9/60,1,0/60,1,9/61,1,0/61,1,9/62,1,0/62,1,9/63,1,0/63,1,9/64,1,0/64,1,9/\n\
3@refused offsets novolume/@hydro|job.toml|hull.csv@version = 1/density = 1025/length_bp = 100000/@0,0,0/0,0,9/5,0,0/5,0,9/9,0,0/9,0,9/\n\
";

// By the first displacement that is more than the whole hull's.
const HEAVY: &str = "\
3@refused heavy 20500001 120000000000000/@cross|job.toml|hull.csv@version = 1/density = 1025/length_bp = 100000/displacements = [10250000, 20500001, 20500002]/\n\
";

// The job before the hull.
const JOBS: &str = "\
3@refused job text/@bonjean|job.toml|hull.csv@version = \n\
3@refused job version/@bonjean|job.toml|hull.csv@version = 3/\n\
3@refused job missing version 0/@bonjean|job.toml|hull.csv@density = 1025/\n\
3@refused job unknown top 0/@bonjean|job.toml|hull.csv@version = 1/densty = 1025/\n\
3@refused job kind length_bp 0/@bonjean|job.toml|hull.csv@version = 1/density = 1025/length_bp = '100'/\n\
3@refused job range drafts 0/@bonjean|job.toml|hull.csv@version = 1/density = 1025/length_bp = 100000/drafts = [131072]/\n\
3@refused job many displacements 0/@bonjean|job.toml|hull.csv@version = 1/density = 1025/length_bp = 100000/displacements = [1,1,1,1,1,1,1,1,1,1,1,1,1,1,1,1,1]/\n\
3@refused job missing item.mass 2/@bonjean|job.toml|hull.csv@version = 1/density = 1025/length_bp = 100000/item = [{name = 'a', mass = 1, x = 0, z = 0}, {name = 'b', x = 0, z = 0}]/\n\
3@refused job unknown item 1/@bonjean|job.toml|hull.csv@version = 1/density = 1025/length_bp = 100000/item = [{name = 'a', mass = 1, x = 0, y = 0, z = 0}]/\n\
3@refused job range item.y 1/@bonjean|job.toml|hull.csv@version = 2/density = 1025/length_bp = 100000/item = [{name = 'a', mass = 1, x = 0, y = -65536, z = 0}]/\n\
3@refused job range opening.y 1/@bonjean|job.toml|hull.csv@version = 1/density = 1025/length_bp = 100000/opening = [{name = 'a', y = 65536, z = 0}]/\n\
3@refused job name opening.name 1/@bonjean|job.toml|hull.csv@version = 1/density = 1025/length_bp = 100000/opening = [{name = 'a b', y = 0, z = 0}]/\n\
3@refused job twice item.name 2/@bonjean|job.toml|hull.csv@version = 1/density = 1025/length_bp = 100000/item = [{name = 'a', mass = 1, x = 0, z = 0}, {name = 'a', mass = 1, x = 0, z = 0}]/\n\
3@refused job overlap 1 2/@bonjean|job.toml|hull.csv@version = 1/density = 1025/length_bp = 100000/compartment = [{name = 'a', from = 0, to = 10, permeability = 1000}, {name = 'b', from = 5, to = 20, permeability = 1000}]/\n\
3@refused job notnamed 1/@bonjean|job.toml|hull.csv@version = 1/density = 1025/length_bp = 100000/damage = [{name = 'a', flooded = ['b']}]/\n\
3@refused job missing floodable.step 0/@bonjean|job.toml|hull.csv@version = 1/density = 1025/length_bp = 100000/floodable = {centres = [0], permeability = 800}/\n\
3@refused job version/@hydro|job.toml|hull.csv@version = 3/@0,1/\n\
3@refused job version/@hydro|job.toml|absent.csv@version = 3/\n\
";

#[test]
fn each_hull_is_refused_by_its_first_fault(rt: HostRuntime) -> Result<(), Fail> {
    assert_eq!(rt; wrong_case(rt.alloc(), HULLS)?, None);
    Ok(())
}

#[test]
fn the_first_that_is_too_heavy_is_named(rt: HostRuntime) -> Result<(), Fail> {
    assert_eq!(rt; wrong_case(rt.alloc(), HEAVY)?, None);
    Ok(())
}

#[test]
fn each_job_is_refused_by_its_first_fault(rt: HostRuntime) -> Result<(), Fail> {
    assert_eq!(rt; wrong_case(rt.alloc(), JOBS)?, None);
    Ok(())
}
