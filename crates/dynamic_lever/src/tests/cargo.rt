// The cargo ship, loaded for departure, at every degree.
use super::{faces_with, is_near};
use crate::{Arm, ArmTable, arms, upright};
use hull_model::{Point, Points, Station};
use hull_polyhedron::Faces;
use job_reader::{Job, read_job};
use loading_sheet::{Loading, load};
use std::alloc::Global;
use std::test::Fail;

// A station on each line: x, and half-breadths over heights.
const HULL: &str = "\
0 0/0 0/1000 0/3000 1500/6000 6000/9000 7500/12000\n\
5000 0/0 400/1000 900/3000 3800/6000 7300/9000 8200/12000\n\
10000 200/0 1200/1000 2500/3000 5900/6000 8300/9000 8700/12000\n\
15000 800/0 2600/1000 4600/3000 7500/6000 8800/9000 8950/12000\n\
20000 1900/0 4400/1000 6500/3000 8500/6000 9000/9000 9000/12000\n\
25000 3400/0 6200/1000 7900/3000 8900/6000 9000/9000 9000/12000\n\
30000 5000/0 7600/1000 8700/3000 9000/6000 9000/9000 9000/12000\n\
35000 6200/0 8300/1000 8950/3000 9000/6000 9000/9000 9000/12000\n\
40000 6800/0 8600/1000 9000/3000 9000/6000 9000/9000 9000/12000\n\
45000 7000/0 8700/1000 9000/3000 9000/6000 9000/9000 9000/12000\n\
50000 7000/0 8700/1000 9000/3000 9000/6000 9000/9000 9000/12000\n\
55000 7000/0 8700/1000 9000/3000 9000/6000 9000/9000 9000/12000\n\
60000 6800/0 8600/1000 9000/3000 9000/6000 9000/9000 9000/12000\n\
65000 6300/0 8300/1000 8950/3000 9000/6000 9000/9000 9000/12000\n\
70000 5400/0 7700/1000 8700/3000 8950/6000 9000/9000 9000/12000\n\
75000 4200/0 6600/1000 8000/3000 8600/6000 8850/9000 9000/12000\n\
80000 2900/0 5200/1000 6900/3000 7800/6000 8300/9000 8800/12000\n\
85000 1700/0 3600/1000 5300/3000 6400/6000 7200/9000 8200/12000\n\
90000 800/0 2200/1000 3500/3000 4600/6000 5600/9000 7100/12000\n\
95000 200/0 900/1000 1700/3000 2500/6000 3500/9000 5200/12000\n\
102000 0/12000";

const JOB: &str = "version = 1\ndensity = 1025\nlength_bp = 100000\nitem = [\n\
{name = 'steel', mass = 2400000, x = 47000, z = 6800},\n\
{name = 'engine', mass = 300000, x = 14000, z = 4500},\n\
{name = 'house', mass = 250000, x = 12000, z = 15000},\n\
{name = 'hold1', mass = 1300000, x = 78000, z = 6200},\n\
{name = 'hold2', mass = 1500000, x = 58000, z = 6000},\n\
{name = 'hold3', mass = 1500000, x = 38000, z = 6000},\n\
{name = 'fuel_p', mass = 120000, x = 24000, z = 3500, free_surface = 100000},\n\
{name = 'fuel_s', mass = 120000, x = 24000, z = 3500, free_surface = 100000},\n\
{name = 'fresh', mass = 60000, x = 8000, z = 8000, free_surface = 20000},\n\
{name = 'stores', mass = 20000, x = 90000, z = 11000},\n\
{name = 'ballast', mass = 800000, x = 52000, z = 700},\n\
{name = 'crew', mass = 10000, x = 12000, z = 13000}]\n";

// For each degree from 0 on: the greatest level in grid units at which the ship's bracket holds no more than is displaced, in
// its direction of least heel, and the lever and the separation there, as an exact computation over fractions found them:
// the floors in units of 2^-20 mm.
const LEVERS: &str = "\
6705461 0 2536248473\n\
6704274 32047511 2536527506\n\
6700712 64161363 2537366507\n\
6694775 96407686 2538767624\n\
6686458 128845167 2540734036\n\
6675710 161454696 2543266373\n\
6662501 194261873 2546370325\n\
6646830 227333543 2550049006\n\
6628699 260741855 2554308017\n\
6608112 294561562 2559153020\n\
6585072 328869951 2564592653\n\
6559583 363746179 2570635633\n\
6531647 399271742 2577293908\n\
6501268 435532201 2584577872\n\
6468448 472615987 2592501677\n\
6433189 510615804 2601080754\n\
6395495 549627146 2610331088\n\
6355393 589708043 2620271727\n\
6312921 630904787 2630922104\n\
6268108 673287379 2642301310\n\
6220979 716936180 2654431464\n\
6171557 761941390 2667336068\n\
6119795 808250957 2681035784\n\
6065583 855695763 2695555242\n\
6008904 904288522 2710912809\n\
5949747 954092199 2727128263\n\
5888103 1005195396 2744224390\n\
5823965 1057700952 2762224202\n\
5757330 1111725866 2781153137\n\
5688194 1167400532 2801040956\n\
5616560 1224869374 2821913632\n\
5542422 1284284413 2843807939\n\
5465709 1345649798 2866756371\n\
5386392 1407378058 2890782908\n\
5306126 1465467515 2915860099\n\
5225229 1519215135 2941912575\n\
5143761 1568583980 2968864909\n\
5061769 1613650977 2996641840\n\
4979297 1654513686 3025167346\n\
4896375 1691286425 3054371244\n\
4812998 1724161432 3084182090\n\
4729142 1753354418 3114534000\n\
4644707 1778922769 3145364708\n\
4559463 1800674645 3176608003\n\
4473335 1818707941 3208198383\n\
4386281 1833167288 3240072020\n\
4298285 1844223482 3272168565\n\
4209347 1852052381 3304428851\n\
4119470 1856813923 3336798955\n\
4028663 1858658049 3369226635\n\
3936941 1857725484 3401662630\n\
3844317 1854160232 3434058625\n\
3750802 1848101300 3466370199\n\
3656408 1839678174 3498555964\n\
3561154 1829015242 3530573945\n\
3465054 1816224478 3562387815\n\
3368128 1801414847 3593960688\n\
3270396 1784688017 3625258356\n\
3171882 1766141007 3656247272\n\
3072605 1745862071 3686898071\n\
2972592 1723939154 3717179928\n\
2871866 1700452133 3747065683\n\
2770453 1675478758 3776528437\n\
2668379 1649092122 3805542761\n\
2565669 1621360457 3834084894\n\
2462351 1592351022 3862131261\n\
2358449 1562124482 3889661127\n\
2253992 1530742879 3916653242\n\
2149009 1498265129 3943087742\n\
2043527 1464746332 3968946523\n\
1937577 1430242719 3994211373\n\
1831188 1394806464 4018865844\n\
1724391 1358489726 4042894149\n\
1617219 1321343580 4066281146\n\
1509704 1283416570 4089013237\n\
1401886 1244762268 4111076672\n\
1293799 1205429471 4132459517\n\
1185473 1165462801 4153150383\n\
1076939 1124906586 4173138429\n\
968227 1083804160 4192413920\n\
859371 1042201197 4210967531\n\
750404 1000142413 4228790979\n\
641354 957667084 4245876615\n\
532242 914808358 4262217577\n\
423102 871609191 4277807471\n\
314005 828137940 4292640955\n\
205024 784466248 4306713802\n\
96195 740643268 4320023093\n\
-12578 696627580 4332566055\n\
-121531 652251434 4344337833\n\
-230720 607480509 4355331637";

fn cargo(alloc: Global) -> Result<Option<Faces>, Fail> {
    let mut stations = Vec::new(alloc);
    for line in HULL.lines() {
        let mut words = line.split(' ');
        let x = words.next().ok_or("no x")?.parse()?;
        let mut points = Vec::new(alloc);
        for word in words {
            let (y, z) = word.split_once('/').ok_or("no height")?;
            points.push(Point {
                y: y.parse()?,
                z: z.parse()?,
            })?;
        }
        stations.push(Station {
            x,
            points: Points::new(points),
        })?;
    }
    faces_with(alloc, stations)
}

fn departure(job: &Job) -> Result<Loading, Fail> {
    Ok(load(job.items.as_slice()).map_err(|_| "no loading")?)
}

// Whether a row has a line's level in its bracket, and holds its figures to both sides.
fn is_at(row: &Arm, line: &str) -> Result<bool, Fail> {
    let mut words = line.split(' ');
    let level: i64 = words.next().ok_or("no level")?.parse()?;
    let (gz, sep) = (words.next(), words.next());
    let [gz_port, gz_starboard] = row.gz;
    let [sep_port, sep_starboard] = row.sep;
    Ok(
        row.drafts.d1 <= level
            && level <= row.drafts.d2
            && is_near(gz_port, gz)?
            && is_near(gz_starboard, gz)?
            && is_near(sep_port, sep)?
            && is_near(sep_starboard, sep)?,
    )
}

// The first line that its row doesn't hold.
fn wrong_line(table: &ArmTable) -> Result<Option<&'static str>, Fail> {
    let mut rows = table.rows.iter();
    for line in LEVERS.lines() {
        if !is_at(rows.next().ok_or("no row")?, line)? {
            return Ok(Some(line));
        }
    }
    match rows.next() {
        Some(_) => Ok(Some("no line")),
        None => Ok(None),
    }
}

#[test]
fn levers_of_the_cargo_ship(rt: HostRuntime) -> Result<(), Fail> {
    let faces = cargo(rt.alloc())?.expect(&rt, "a hull");
    let job = read_job(rt.alloc(), JOB.as_bytes()).map_err(|_| "refused")?;
    let loading = departure(&job)?;
    assert_eq!(rt; (loading.mass, loading.mx), (8_380_000, 415_160_000_000));
    assert_eq!(rt; (loading.my, loading.mz), (0, 49_930_000_000));
    let table = arms(&faces, &loading, &job.water).ok().expect(&rt, "arms");
    assert_eq!(rt; wrong_line(&table)?, None);
    Ok(())
}

#[test]
fn heights_of_the_cargo_ship_upright(rt: HostRuntime) -> Result<(), Fail> {
    let faces = cargo(rt.alloc())?.expect(&rt, "a hull");
    let job = read_job(rt.alloc(), JOB.as_bytes()).map_err(|_| "refused")?;
    let loading = departure(&job)?;
    let row = upright(&faces, &loading, &job.water)
        .ok()
        .expect(&rt, "a row");
    assert!(rt; is_near(row.kb, Some("3711412585"))?);
    assert!(rt; is_near(row.bm, Some("4371810472"))?);
    assert!(rt; is_near(row.gm, Some("1835561999"))?);
    Ok(())
}
