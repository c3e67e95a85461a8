// Directions worked by hand.
use crate::{Bracket, Degree, Triple, bracket_of, exact, leaf, number_of};

#[test]
fn new_at_its_limits(rt: HostRuntime) {
    for (c, s, r, want) in [
        (1, 0, 1, true),
        (0, 1, 1, true),
        (3, 4, 5, true),
        (6, 8, 10, true),
        (562949953421312, 0, 562949953421312, true),
        (562949953421313, 0, 562949953421313, false),
        (0, 0, 0, false),
        (3, 4, 6, false),
        (4, 4, 5, false),
        (18446744073709551615, 0, 1, false),
        (4294967296, 0, 0, false),
    ] {
        let triple = Triple::new(c, s, r);
        assert_eq!(rt; triple.is_some(), want, "{c} {s} {r}");
        if let Some(triple) = triple {
            assert_eq!(rt; (triple.c, triple.s, triple.r), (c, s, r));
        }
    }
}

#[test]
fn exact_at_right_angles_and_between(rt: HostRuntime) {
    for (c, s, r, cosine, sine) in [
        (1, 0, 1, (1099511627776, 1099511627776), (0, 0)),
        (0, 7, 7, (0, 0), (1099511627776, 1099511627776)),
        (
            3,
            4,
            5,
            (659706976665, 659706976666),
            (879609302220, 879609302221),
        ),
    ] {
        let triple = Triple::new(c, s, r);
        assert!(rt; triple.is_some());
        if let Some(triple) = triple {
            let bracket = exact(triple);
            assert_eq!(rt; bracket.low, triple);
            assert_eq!(rt; bracket.high, triple);
            assert_eq!(rt; (bracket.c.lo(), bracket.c.hi()), cosine);
            assert_eq!(rt; (bracket.s.lo(), bracket.s.hi()), sine);
        }
    }
}

#[test]
fn degrees_at_their_limits(rt: HostRuntime) {
    for (k, want) in [(0, true), (90, true), (91, false), (4294967295, false)] {
        let degree = Degree::new(k);
        assert_eq!(rt; degree.is_some(), want, "{k}");
        if let Some(degree) = degree {
            assert_eq!(rt; degree.get(), k);
        }
    }
}

#[test]
fn numbers_of_degrees(rt: HostRuntime) {
    for (k, number) in [
        (0, 0),
        (30, 4495441),
        (45, 6949350),
        (60, 9686330),
        (90, 16777216),
    ] {
        let degree = Degree::new(k);
        assert!(rt; degree.is_some());
        if let Some(degree) = degree {
            assert_eq!(rt; number_of(degree), number, "{k}");
        }
    }
}

// The numbers of the ends of a bracket, as they are written.
fn ends(bracket: &Bracket) -> [(u64, u64, u64); 2] {
    [
        (bracket.low.c, bracket.low.s, bracket.low.r),
        (bracket.high.c, bracket.high.s, bracket.high.r),
    ]
}

#[test]
fn brackets_of_degrees(rt: HostRuntime) {
    for (k, low, high) in [
        (
            0,
            (281474976710656, 0, 281474976710656),
            (281474976710656, 0, 281474976710656),
        ),
        (
            30,
            (261265986926175, 150841969344512, 301683966495137),
            (261265977935292, 150842002898944, 301683975486020),
        ),
        (
            90,
            (0, 562949953421312, 562949953421312),
            (0, 562949953421312, 562949953421312),
        ),
    ] {
        let degree = Degree::new(k);
        assert!(rt; degree.is_some());
        if let Some(degree) = degree {
            assert_eq!(rt; ends(&bracket_of(degree)), [low, high], "{k}");
        }
    }
}

#[test]
fn leaf_of_two_numbers(rt: HostRuntime) {
    assert_eq!(rt;
        ends(&leaf(0, 1)),
        [
            (281474976710656, 0, 281474976710656),
            (281474976710655, 33554432, 281474976710657),
        ]
    );
}
