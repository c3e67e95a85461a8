// Lines of every form, with the least and the greatest numbers of each type.
use super::both_ways;
use crate::{
    Call, CaseEnd, Finding, LimitLine, Line, ReasonLine, SafeBox, ShownLine, SideLine, Sides,
};
use outward_interval::Figure;
use std::alloc::{AllocError, Global};
use std::test::Fail;

const LINES: &str = "\
hullcert 1 hydro\n\
hullcert 1 bonjean\n\
hullcert 1 cross\n\
hullcert 1 stability\n\
hullcert 1 damage\n\
hullcert 1 floodable\n\
hullcert 1 all\n\
hullcert 1 section\n\
hullcert 1 make\n\
hullcert 2 tanks\n\
hullcert 2 strength\n\
hullcert 1 flooded\n\
hull 3 6\n\
hull 0 4294967295\n\
body 120000000000000\n\
body -170141183460469231731687303715884105728\n\
body 170141183460469231731687303715884105727\n\
body 0\n\
hydro 5000 [41.000000,41.000001] [42.025000,42.025001] [-0.500000,-0.499999] [2.500000,2.500000] [2000.000000,2000.000000] [50.000000,50.000001] [6.666666,6.666667] [416.666666,416.666667] [9.166666,9.166667] [20.500000,20.500000] [1708.333333,1708.333334]\n\
hydro 0 [0.000000,0.000000] [0.000000,0.000000] - - [0.000000,0.000000] - - - - [0.000000,0.000000] -\n\
section 1 50000 5000 [100.000000,100.000000] [250.000000000,250.000000000]\n\
cross 18446744073709551615 90 -9223372036854775808 9223372036854775807 [-1.234567,0.000000]\n\
load 8380000 [49.541766,49.541767] [5.958233,5.958234]\n\
load 10250000 [50.000000,50.000000] [-0.500000,-0.500000] [7.000000,7.000000]\n\
upright -1 0 [2.500000,2.500000] [6.666666,6.666667] [3.166666,3.166667]\n\
arm 0 5242880 5242881 [-0.000001,0.000001] [0.000000,0.000000]\n\
arm 90 -1 0 [-4.100000,-4.100000] [0.000000,0.000001] [4.100000,4.100000] [-0.000001,0.000000]\n\
mark C1 holds\n\
mark C6 fails\n\
mark C3 unsure\n\
verdict pass\n\
verdict fail C1 interval 40 [0.089999,0.090000]\n\
verdict undecided C5 pair 24 25\n\
verdict fail C2 leak 1 35 [-0.010000,0.010000]\n\
verdict fail C1 starboard interval 30 [-0.100000,-0.099999]\n\
verdict undecided C6 port leak 64 0 [-0.010000,0.010000]\n\
verdict undecided C4 port heel 4405088 4405344 [0.199999,0.200001]\n\
verdict fail C5 heels 0 16777216 4294967295 1\n\
damage 1 1 2 -3 4\n\
damage 2 sinks [10.000000,10.000000]\n\
damage 3 nostart fore\n\
damage 32 nostart aft\n\
safe 50000 49600 1 2 3 4\n\
safe 50000 -\n\
next 50000 49700 over 0 -1 -2 3 4\n\
next 1 2 touch 40 1 2 3 4\n\
next 200 500 endofship\n\
next 1 2 sinks\n\
next 1 2 nostart\n\
tank 64 131071 [1800.000000,1800.000000] [25.000000,25.000000] [4.000000,4.000000] [7200.000000,7200.000000]\n\
tank 1 0 [0.000000,0.000000] - - [0.000000,0.000001]\n\
float -1 -2 3 4\n\
float sinks [10.000000,10.000000]\n\
float nostart fore\n\
float nostart aft\n\
strength 1 50000 [5125.000000,5125.000000] [-0.000001,128125.000000]\n\
darm 32 90 -1 0 [-4.100000,-4.100000] [0.000000,0.000001] [4.100000,4.100000] [-0.000001,0.000000]\n\
dshort 1 0 [8000.000000,8000.000000]\n\
hulllimits 1\n\
limit 18446744073709551615 131071\n\
limit 10250000 -\n\
beyond 10250000 9050 fail C6 interval 0 [0.116666,0.116667]\n\
beyond 1 0 undecided C5 heels 1 2 3 4\n\
beyond 68719476736 4294967295 endofrange\n\
cross 0 0 0 0 [-170141183460469231731687303715884.105728,170141183460469231731687303715884.105727]\n\
end 4294967295\n\
";

#[test]
fn every_form_is_read_and_written(rt: HostRuntime) -> Result<(), Fail> {
    assert_eq!(rt; both_ways(rt.alloc(), LINES.as_bytes())?.len(), 66);
    Ok(())
}

const FIGURE: Figure = Figure { lo: -1, hi: 1 };

const SIDES: Sides = Sides {
    a1: -1,
    a2: 2,
    f1: -3,
    f2: 4,
};

#[test]
fn lines_of_tables_have_these_fields(rt: HostRuntime) -> Result<(), Fail> {
    for (text, line) in [
        ("body -5\n", Line::Body { six: -5 }),
        (
            "hydro 7 F F F - F - - - - F -\n",
            Line::Hydro {
                draft: 7,
                figures: [
                    Some(FIGURE),
                    Some(FIGURE),
                    Some(FIGURE),
                    None,
                    Some(FIGURE),
                    None,
                    None,
                    None,
                    None,
                    Some(FIGURE),
                    None,
                ],
            },
        ),
        (
            "cross 8 9 -1 2 F\n",
            Line::Cross {
                mass: 8,
                degree: 9,
                d1: -1,
                d2: 2,
                kn: FIGURE,
            },
        ),
        (
            "load 8 F [0.000002,0.000002]\n",
            Line::Load {
                mass: 8,
                lcg: FIGURE,
                kg: Figure { lo: 2, hi: 2 },
            },
        ),
        (
            "load 8 F [0.000002,0.000002] [0.000003,0.000003]\n",
            Line::Load2 {
                mass: 8,
                lcg: FIGURE,
                tcg: Figure { lo: 2, hi: 2 },
                kg: Figure { lo: 3, hi: 3 },
            },
        ),
        (
            "upright -1 2 F F [0.000002,0.000002]\n",
            Line::Upright {
                d1: -1,
                d2: 2,
                kb: FIGURE,
                bm: FIGURE,
                gm: Figure { lo: 2, hi: 2 },
            },
        ),
        (
            "arm 9 -1 2 F [0.000002,0.000002]\n",
            Line::Arm {
                degree: 9,
                d1: -1,
                d2: 2,
                gz: FIGURE,
                area: Figure { lo: 2, hi: 2 },
            },
        ),
        (
            "arm 9 -1 2 F [0.000002,0.000002] [0.000003,0.000003] [0.000004,0.000004]\n",
            Line::Arm2 {
                degree: 9,
                d1: -1,
                d2: 2,
                port_gz: FIGURE,
                port_area: Figure { lo: 2, hi: 2 },
                star_gz: Figure { lo: 3, hi: 3 },
                star_area: Figure { lo: 4, hi: 4 },
            },
        ),
    ] {
        assert_eq!(rt;
            both_ways(rt.alloc(), &with_figures(rt.alloc(), text)?)?.as_slice(),
            [line].as_slice()
        );
    }
    Ok(())
}

#[test]
fn lines_of_criteria_have_these_fields(rt: HostRuntime) -> Result<(), Fail> {
    for (text, line) in [
        (
            "mark C3 fails\n",
            Line::Mark {
                criterion: 3,
                finding: Finding::Fails,
            },
        ),
        ("verdict pass\n", Line::Verdict { call: Call::Pass }),
        (
            "verdict fail C4 interval 30 F\n",
            Line::Verdict {
                call: Call::Fail {
                    criterion: 4,
                    side: None,
                    shown: ShownLine::Interval {
                        degree: 30,
                        figure: FIGURE,
                    },
                },
            },
        ),
        (
            "verdict undecided C5 pair 24 26\n",
            Line::Verdict {
                call: Call::Undecided {
                    criterion: 5,
                    side: None,
                    shown: ShownLine::Pair { low: 24, high: 26 },
                },
            },
        ),
        (
            "verdict undecided C2 leak 1 35 F\n",
            Line::Verdict {
                call: Call::Undecided {
                    criterion: 2,
                    side: None,
                    shown: ShownLine::Leak {
                        opening: 1,
                        degree: 35,
                        figure: FIGURE,
                    },
                },
            },
        ),
        (
            "verdict fail C1 starboard heel 5 6 F\n",
            Line::Verdict {
                call: Call::Fail {
                    criterion: 1,
                    side: Some(SideLine::Starboard),
                    shown: ShownLine::Heel {
                        q: 5,
                        q2: 6,
                        figure: FIGURE,
                    },
                },
            },
        ),
        (
            "verdict undecided C5 port heels 1 2 3 4\n",
            Line::Verdict {
                call: Call::Undecided {
                    criterion: 5,
                    side: Some(SideLine::Port),
                    shown: ShownLine::Heels {
                        q: 1,
                        q2: 2,
                        p: 3,
                        p2: 4,
                    },
                },
            },
        ),
    ] {
        assert_eq!(rt;
            both_ways(rt.alloc(), &with_figures(rt.alloc(), text)?)?.as_slice(),
            [line].as_slice()
        );
    }
    Ok(())
}

#[test]
fn lines_of_damage_and_lengths_have_these_fields(rt: HostRuntime) -> Result<(), Fail> {
    for (text, line) in [
        (
            "damage 1 -1 2 -3 4\n",
            Line::Damage {
                case: 1,
                end: CaseEnd::Settled { sides: SIDES },
            },
        ),
        (
            "damage 2 sinks F\n",
            Line::Damage {
                case: 2,
                end: CaseEnd::Sinks { left: FIGURE },
            },
        ),
        (
            "damage 3 nostart fore\n",
            Line::Damage {
                case: 3,
                end: CaseEnd::NoStartFore,
            },
        ),
        (
            "damage 4 nostart aft\n",
            Line::Damage {
                case: 4,
                end: CaseEnd::NoStartAft,
            },
        ),
        (
            "safe 5 6 -1 2 -3 4\n",
            Line::Safe {
                centre: 5,
                reach: Some(SafeBox {
                    length: 6,
                    sides: SIDES,
                }),
            },
        ),
        (
            "safe 5 -\n",
            Line::Safe {
                centre: 5,
                reach: None,
            },
        ),
        (
            "next 5 6 over 7 -1 2 -3 4\n",
            Line::Next {
                centre: 5,
                length: 6,
                reason: ReasonLine::Over {
                    station: 7,
                    sides: SIDES,
                },
            },
        ),
        (
            "next 5 6 touch 7 -1 2 -3 4\n",
            Line::Next {
                centre: 5,
                length: 6,
                reason: ReasonLine::Touch {
                    station: 7,
                    sides: SIDES,
                },
            },
        ),
        (
            "next 5 6 endofship\n",
            Line::Next {
                centre: 5,
                length: 6,
                reason: ReasonLine::EndOfShip,
            },
        ),
    ] {
        assert_eq!(rt;
            both_ways(rt.alloc(), &with_figures(rt.alloc(), text)?)?.as_slice(),
            [line].as_slice()
        );
    }
    Ok(())
}

#[test]
fn lines_of_further_reports_have_these_fields(rt: HostRuntime) -> Result<(), Fail> {
    for (text, line) in [
        (
            "tank 1 2 F - F [0.000002,0.000002]\n",
            Line::Tank {
                compartment: 1,
                level: 2,
                volume: FIGURE,
                lcg: None,
                kg: Some(FIGURE),
                inertia: Figure { lo: 2, hi: 2 },
            },
        ),
        (
            "float -1 2 -3 4\n",
            Line::Float {
                end: CaseEnd::Settled { sides: SIDES },
            },
        ),
        (
            "strength 1 2 F [0.000002,0.000002]\n",
            Line::Strength {
                station: 1,
                x: 2,
                shear: FIGURE,
                bend: Figure { lo: 2, hi: 2 },
            },
        ),
        (
            "darm 7 9 -1 2 F [0.000002,0.000002] [0.000003,0.000003] [0.000004,0.000004]\n",
            Line::FloodedArm {
                case: 7,
                degree: 9,
                d1: -1,
                d2: 2,
                port_gz: FIGURE,
                port_area: Figure { lo: 2, hi: 2 },
                star_gz: Figure { lo: 3, hi: 3 },
                star_area: Figure { lo: 4, hi: 4 },
            },
        ),
        (
            "dshort 7 9 F\n",
            Line::FloodedShort {
                case: 7,
                degree: 9,
                left: FIGURE,
            },
        ),
    ] {
        assert_eq!(rt;
            both_ways(rt.alloc(), &with_figures(rt.alloc(), text)?)?.as_slice(),
            [line].as_slice()
        );
    }
    Ok(())
}

#[test]
fn lines_of_limiting_heights_have_these_fields(rt: HostRuntime) -> Result<(), Fail> {
    for (text, line) in [
        ("hulllimits 1\n", Line::LimitsHead),
        (
            "limit 8 9\n",
            Line::Limit {
                mass: 8,
                height: Some(9),
            },
        ),
        (
            "limit 8 -\n",
            Line::Limit {
                mass: 8,
                height: None,
            },
        ),
        (
            "beyond 8 9 endofrange\n",
            Line::Beyond {
                mass: 8,
                height: 9,
                why: LimitLine::EndOfRange,
            },
        ),
        (
            "beyond 8 9 fail C6 interval 0 F\n",
            Line::Beyond {
                mass: 8,
                height: 9,
                why: LimitLine::Fail {
                    criterion: 6,
                    shown: ShownLine::Interval {
                        degree: 0,
                        figure: FIGURE,
                    },
                },
            },
        ),
        (
            "beyond 8 9 undecided C5 heels 1 2 3 4\n",
            Line::Beyond {
                mass: 8,
                height: 9,
                why: LimitLine::Undecided {
                    criterion: 5,
                    shown: ShownLine::Heels {
                        q: 1,
                        q2: 2,
                        p: 3,
                        p2: 4,
                    },
                },
            },
        ),
    ] {
        assert_eq!(rt;
            both_ways(rt.alloc(), &with_figures(rt.alloc(), text)?)?.as_slice(),
            [line].as_slice()
        );
    }
    Ok(())
}

// A text with the figure from -0.000001 to 0.000001 in the place of each `F`.
fn with_figures(alloc: Global, text: &str) -> Result<Vec<u8>, AllocError> {
    let mut whole = Vec::new(alloc);
    for byte in text.as_bytes() {
        if *byte == b'F' {
            whole.extend_from_slice(b"[-0.000001,0.000001]")?;
        } else {
            whole.extend_from_slice(&[*byte])?;
        }
    }
    Ok(whole)
}
