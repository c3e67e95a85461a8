// Texts that aren't in the grammar.
use crate::{ReadBack, lines_of};
use std::test::Fail;

// The number of the first line that isn't in the grammar, and a text, whose lines are ended by a slash here.
const WRONG: &str = "\
1=hull 03 6/\n\
1=hull +3 6/\n\
1=hull -3 6/\n\
1=hull -0 6/\n\
1=hull 3  6/\n\
1= hull 3 6/\n\
1=hull 3 6 /\n\
1=hull 3 6\n\
1=/\n\
1=hull 3/\n\
1=hull 3 6 9/\n\
1=hull 4294967296 0/\n\
1=hull 18446744073709551616 0/\n\
1=hull 3.0 6/\n\
1=hull 3e0 6/\n\
1=hull 3 six/\n\
1=Hull 3 6/\n\
1=hulls 3 6/\n\
1=hull\t3 6/\n\
1=hull 3 6\r/\n\
1=body 170141183460469231731687303715884105728/\n\
1=body -170141183460469231731687303715884105729/\n\
1=body 340282366920938463463374607431768211456/\n\
1=body --1/\n\
1=body -/\n\
1=body - 1/\n\
1=body 1-/\n\
1=body -01/\n\
1=body \u{661}/\n\
1=load 18446744073709551616 [1.000000,1.000000] [1.000000,1.000000]/\n\
1=load 1 [-0.000000,0.000000] [1.000000,1.000000]/\n\
1=load 1 [0.000000,-0.000000] [1.000000,1.000000]/\n\
1=load 1 [00.000000,0.000000] [1.000000,1.000000]/\n\
1=load 1 [01.000000,2.000000] [1.000000,1.000000]/\n\
1=load 1 [2.000000,1.000000] [1.000000,1.000000]/\n\
1=load 1 [-1.000000,-2.000000] [1.000000,1.000000]/\n\
1=load 1 [1.00000,1.000000] [1.000000,1.000000]/\n\
1=load 1 [1.0000000,1.000000] [1.000000,1.000000]/\n\
1=load 1 [1,1] [1.000000,1.000000]/\n\
1=load 1 [.500000,1.000000] [1.000000,1.000000]/\n\
1=load 1 [+1.000000,1.000000] [1.000000,1.000000]/\n\
1=load 1 [1.000000,1.000000 [1.000000,1.000000]/\n\
1=load 1 [1.000000;1.000000] [1.000000,1.000000]/\n\
1=load 1 [1.000000, 1.000000] [1.000000,1.000000]/\n\
1=load 1 1.000000,1.000000 [1.000000,1.000000]/\n\
1=load 1 [1.000000,1.000000,1.000000] [1.000000,1.000000]/\n\
1=load 1 - [1.000000,1.000000]/\n\
1=load 1 [[1.000000,1.000000]] [1.000000,1.000000]/\n\
1=load 1 [0.000000,170141183460469231731687303715884.105728] [1.000000,1.000000]/\n\
1=load 1 [1.000000,1.000000]/\n\
1=load 1 [1.000000,1.000000] [1.000000,1.000000] [1.000000,1.000000] [1.000000,1.000000]/\n\
1=load 1 [1.000000,1.000000] [1.000000,1.000000] -/\n\
1=load 1 [1.000000,1.000000] [1.000000,1.000000] /\n\
1=load 1 [1.000000,1.000000] [1.000000,1.000000] [1.00000,1.000000]/\n\
1=section 1 50000 5000 [100.000000000,100.000000000] [250.000000000,250.000000000]/\n\
1=section 1 50000 5000 [100.000000,100.000000] [250.000000,250.000000]/\n\
1=hydro 0 [0.000000,0.000000] [0.000000,0.000000] - - - - - - - [0.000000,0.000000] -/\n\
1=hydro 0 - [0.000000,0.000000] - - [0.000000,0.000000] - - - - [0.000000,0.000000] -/\n\
1=hydro 0 [0.000000,0.000000] [0.000000,0.000000] - - [0.000000,0.000000] - - - - - -/\n\
1=hydro 0 [0.000000,0.000000] [0.000000,0.000000] - - [0.000000,0.000000] - - - - [0.000000,0.000000]/\n\
1=hydro 0 [0.000000,0.000000] [0.000000,0.000000] - - [0.000000,0.000000] - - - - [0.000000,0.000000] - -/\n\
1=cross 1 0 9223372036854775808 0 [1.000000,1.000000]/\n\
1=cross 1 0 0 -9223372036854775809 [1.000000,1.000000]/\n\
1=cross -1 0 0 0 [1.000000,1.000000]/\n\
1=arm 0 0 0 [1.000000,1.000000]/\n\
1=arm 0 0 0 [1.000000,1.000000] [1.000000,1.000000] [1.000000,1.000000]/\n\
1=arm 0 0 0 [1.000000,1.000000] [1.000000,1.000000] [1.000000,1.000000] [1.000000,1.000000] [1.000000,1.000000]/\n\
1=arm 0 0 0 [1.000000,1.000000] [1.000000,1.000000] [1.000000,1.000000] -/\n\
1=upright 0 0 [1.000000,1.000000] [1.000000,1.000000]/\n\
1=mark C7 holds/\n\
1=mark C0 holds/\n\
1=mark C01 holds/\n\
1=mark c1 holds/\n\
1=mark 1 holds/\n\
1=mark C holds/\n\
1=mark C1 held/\n\
1=mark C1 Holds/\n\
1=verdict pass C1/\n\
1=verdict fail C1/\n\
1=verdict fail C7 pair 1 2/\n\
1=verdict fail C1 pair 1/\n\
1=verdict undecided C2 gap 1 2/\n\
1=verdict fails C1 pair 1 2/\n\
1=verdict fail C1 port/\n\
1=verdict fail C1 aft pair 1 2/\n\
1=verdict fail C1 Port pair 1 2/\n\
1=verdict fail C1 port starboard pair 1 2/\n\
1=verdict fail C1 pair 1 2 port/\n\
1=verdict fail port C1 pair 1 2/\n\
1=verdict pass port/\n\
1=verdict fail C5 heels 1 2 3/\n\
1=verdict fail C5 heels 1 2 3 4 5/\n\
1=verdict fail C5 heels 1 2 3 4294967296/\n\
1=verdict fail C4 heel 1 [1.000000,1.000000]/\n\
1=verdict fail C4 heel -1 2 [1.000000,1.000000]/\n\
1=verdict endofrange/\n\
1=damage 1 nostart/\n\
1=damage 1 nostart mid/\n\
1=damage 1 1 2 3/\n\
1=damage 1 9223372036854775808 0 0 0/\n\
1=damage 1 sinks/\n\
1=damage 1 sunk fore/\n\
1=safe 1 /\n\
1=safe 1/\n\
1=safe 1 - -/\n\
1=safe 1 2 3 4 5/\n\
1=next 1 2 over 0/\n\
1=next 1 2 touch 0 1 2 3 4 5/\n\
1=next 1 2 sink/\n\
1=next 1 sinks/\n\
1=hullcert 0 section/\n\
1=hullcert 3 section/\n\
1=hullcert 02 section/\n\
1=hullcert -1 section/\n\
1=hullcert section/\n\
1=hullcert 2 limits/\n\
1=hullcert 01 section/\n\
1=hullcert 1 draw/\n\
1=hullcert 1/\n\
1=hullcert 1 section hydro/\n\
1=tank 1 2 - - - [1.000000,1.000000]/\n\
1=tank 1 2 [1.000000,1.000000] - - -/\n\
1=tank 1 2 [1.000000,1.000000] - [1.000000,1.000000]/\n\
1=float 1 2 3/\n\
1=float 1 1 2 3 4/\n\
1=float nostart/\n\
1=strength 1 -2 [1.000000,1.000000] [1.000000,1.000000]/\n\
1=strength 1 2 [1.000000,1.000000]/\n\
1=darm 1 0 0 0 [1.000000,1.000000] [1.000000,1.000000]/\n\
1=darm 0 0 0 [1.000000,1.000000] [1.000000,1.000000] [1.000000,1.000000] [1.000000,1.000000]/\n\
1=dshort 1 [1.000000,1.000000]/\n\
1=hulllimits/\n\
1=hulllimits 2/\n\
1=hulllimits 1 1/\n\
1=limit 1/\n\
1=limit 1 -1/\n\
1=limit 1 - -/\n\
1=limit 1 09/\n\
1=limit 1 4294967296/\n\
1=limit 1 high/\n\
1=beyond 1 2/\n\
1=beyond 1 - endofrange/\n\
1=beyond 1 2 pass/\n\
1=beyond 1 2 fail C6 port interval 0 [1.000000,1.000000]/\n\
1=beyond 1 2 fail C7 interval 0 [1.000000,1.000000]/\n\
1=beyond 1 2 undecided C6/\n\
1=end/\n\
1=end 00/\n\
1=end\u{0}4/\n\
1=\u{feff}end 1/\n\
2=end 4/end 04/\n\
2=end 1//\n\
2=end 1/ end 2/\n\
2=end 1/end 1\n\
3=end 1/end 1/x/end 01/\n\
2=hull 3 6/mark C7 holds/end 02/\n\
3=hullcert 1 section/hull 3 6/section 1 50000 5000 [100.0,100.000000] [250.000000000,250.000000000]/end 4/\n\
4=hullcert 1 section/hull 3 6/section 1 50000 5000 [100.000000,100.000000] [250.000000000,250.000000000]/end 4\n\
";

#[test]
fn first_line_outside_the_grammar_is_named(rt: HostRuntime) -> Result<(), Fail> {
    for row in WRONG.lines() {
        let (number, slashed) = row.split_once('=').ok_or("no number")?;
        let line: u32 = number.parse().ok().ok_or("no number")?;
        let mut text = Vec::new(rt.alloc());
        for byte in slashed.as_bytes() {
            text.push(if *byte == b'/' { b'\n' } else { *byte })?;
        }
        assert!(rt; text.len() < 1_000_000);
        assert_eq!(rt;
            lines_of(rt.alloc(), &text),
            Err(ReadBack::Bad { line }),
            "{}",
            row
        );
    }
    Ok(())
}
