// Lists of words, and what comes of them.
use super::wrong_case;
use std::test::Fail;

const LISTS: &str = "\
3@refused usage/@\n\
0@hullcert 1 section/hull 3 6/section 1 50000 5000 [100.000000,100.000000] [250.000000000,250.000000000]/end 4/@section|hull.csv|1|5000\n\
0@hullcert 1 section/hull 3 6/section 0 0 0 [0.000000,0.000000] [0.000000000,0.000000000]/end 4/@section|hull.csv|000000|000000\n\
0@hullcert 1 section/hull 3 6/section 2 100000 131071 [200.000000,200.000000] [1000.000000000,1000.000000000]/end 4/@section|hull.csv|2|131071\n\
3@refused station 3/@section|hull.csv|3|5000\n\
3@refused station 999999/@section|hull.csv|999999|5000\n\
3@refused usage/@section|hull.csv|1|131072\n\
3@refused usage/@section|hull.csv|1|0131071\n\
3@refused usage/@section|hull.csv|0000001|5000\n\
3@refused usage/@section|hull.csv||5000\n\
3@refused usage/@section|hull.csv|1|\n\
3@refused usage/@section||1|5000\n\
3@refused usage/@section|-hull.csv|1|5000\n\
3@refused usage/@section|hull.csv|-1|5000\n\
3@refused usage/@section|hull.csv|1|+5000\n\
3@refused usage/@section|hull.csv|1|5e3\n\
3@refused usage/@section|hull.csv| 1|5000\n\
3@refused usage/@section|hull.csv|1|\u{665}\n\
3@refused usage/@section|hull.csv|1\n\
3@refused usage/@section|hull.csv|1|5000|\n\
3@refused usage/@Section|hull.csv|1|5000\n\
3@refused usage/@sections|hull.csv|1|5000\n\
3@refused usage/@--help\n\
4@fault read offsets/@section|absent.csv|1|5000\n\
4@fault read offsets/@section|h|1|5000\n\
4@fault read job/@hydro|absent.toml|hull.csv\n\
4@fault read offsets/@bonjean|job.toml|absent.csv\n\
3@refused usage/@hydro|job.toml\n\
3@refused usage/@hydro|job.toml|hull.csv|\n\
3@refused usage/@hydro|-|hull.csv\n\
3@refused usage/@hydro|job.toml|\n\
3@refused usage/@hydr|job.toml|hull.csv\n\
0@hullcert 1 cross/hull 3 6/body 120000000000000/end 4/@cross|job.toml|hull.csv\n\
3@refused load nomass/@stability|job.toml|hull.csv\n\
3@refused load nomass/@all|job.toml|hull.csv\n\
3@refused usage/@all|job.toml\n\
3@refused usage/@make\n\
3@refused usage/@make|4294967296\n\
3@refused usage/@make|00000000001\n\
3@refused usage/@make|\n\
3@refused usage/@make|x\n\
3@refused usage/@make|-1\n\
3@refused usage/@make|1|2\n\
3@refused usage/@made|1\n\
3@refused usage/@section|job.toml|hull.csv\n\
";

#[test]
fn each_list_of_words_has_its_answer(rt: HostRuntime) -> Result<(), Fail> {
    assert_eq!(rt; wrong_case(rt.alloc(), LISTS)?, None);
    Ok(())
}
