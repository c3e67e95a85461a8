// A plain program for small hulls: it follows the definitions step by step, with ratios of 128-bit numbers, and answers None where those
// don't suffice. Later bodies are compared with it.
use crate::{Hull, Node, tets_of};
use std::alloc::Global;

/// A whole number over one above 0, in lowest terms.
#[derive(Clone, Copy, Debug, PartialEq, Eq)]
pub struct Fraction {
    num: i128,
    den: i128,
}

fn common_divisor(a: i128, b: i128, steps: u32) -> Option<i128> {
    if b == 0 {
        return a.checked_abs();
    }
    if steps == 0 {
        return None;
    }
    common_divisor(b, a.checked_rem(b)?, steps - 1)
}

impl Fraction {
    pub fn new(num: i128, den: i128) -> Option<Fraction> {
        let divisor = common_divisor(num, den, 200)?;
        let (num, den) = (num.checked_div(divisor)?, den.checked_div(divisor)?);
        if den < 0 {
            Some(Fraction {
                num: num.checked_neg()?,
                den: den.checked_neg()?,
            })
        } else {
            Some(Fraction { num, den })
        }
    }

    pub fn whole(num: i128) -> Fraction {
        Fraction { num, den: 1 }
    }

    fn add(self, other: Fraction) -> Option<Fraction> {
        let left = self.num.checked_mul(other.den)?;
        let right = other.num.checked_mul(self.den)?;
        Fraction::new(left.checked_add(right)?, self.den.checked_mul(other.den)?)
    }

    fn sub(self, other: Fraction) -> Option<Fraction> {
        self.add(Fraction {
            num: other.num.checked_neg()?,
            den: other.den,
        })
    }

    fn mul(self, other: Fraction) -> Option<Fraction> {
        Fraction::new(
            self.num.checked_mul(other.num)?,
            self.den.checked_mul(other.den)?,
        )
    }

    fn over(self, other: Fraction) -> Option<Fraction> {
        Fraction::new(
            self.num.checked_mul(other.den)?,
            self.den.checked_mul(other.num)?,
        )
    }

    fn magnitude(self) -> Option<Fraction> {
        Some(Fraction {
            num: self.num.checked_abs()?,
            den: self.den,
        })
    }

    pub fn floor(self) -> Option<i128> {
        self.num.checked_div_euclid(self.den)
    }

    fn between(self, x: Fraction, y: Fraction) -> Option<Fraction> {
        x.add(self.mul(y.sub(x)?)?)
    }
}

/// A direction with c² + s² = r², the levels at both ends, and x of the first and the last station.
#[derive(Clone, Copy, Debug, PartialEq, Eq)]
pub struct Plane {
    pub c: i128,
    pub s: i128,
    pub r: i128,
    pub a: Fraction,
    pub f: Fraction,
    pub first: i128,
    pub last: i128,
}

#[derive(Clone, Copy, Debug, PartialEq, Eq)]
struct Corner {
    x: Fraction,
    y: Fraction,
    z: Fraction,
    depth: Fraction,
}

impl Plane {
    fn height(self, y: Fraction, z: Fraction) -> Option<Fraction> {
        let up = z.mul(Fraction::whole(self.c))?;
        let side = y.mul(Fraction::whole(self.s))?;
        up.add(side)?.over(Fraction::whole(self.r))
    }

    fn side_distance(self, y: Fraction, z: Fraction) -> Option<Fraction> {
        let up = z.mul(Fraction::whole(self.s))?;
        let side = y.mul(Fraction::whole(self.c))?;
        up.sub(side)?.over(Fraction::whole(self.r))
    }

    fn corner(self, n: Node) -> Option<Corner> {
        let x = Fraction::whole(i128::from(n.x));
        let y = Fraction::whole(i128::from(n.y));
        let z = Fraction::whole(i128::from(n.z));
        let from_first = x.sub(Fraction::whole(self.first))?;
        let length = Fraction::whole(self.last.checked_sub(self.first)?);
        let level = from_first.over(length)?.between(self.a, self.f)?;
        let depth = level.sub(self.height(y, z)?)?;
        Some(Corner { x, y, z, depth })
    }
}

// The point of depth 0 between two corners of opposite depths.
fn crossing(p: Corner, q: Corner) -> Option<Corner> {
    let t = p.depth.over(p.depth.sub(q.depth)?)?;
    Some(Corner {
        x: t.between(p.x, q.x)?,
        y: t.between(p.y, q.y)?,
        z: t.between(p.z, q.z)?,
        depth: Fraction::whole(0),
    })
}

fn are_opposite(p: Corner, q: Corner) -> bool {
    (p.depth.num < 0 && 0 < q.depth.num) || (0 < p.depth.num && q.depth.num < 0)
}

const EDGES: [(usize, usize); 6] = [(0, 1), (0, 2), (0, 3), (1, 2), (1, 3), (2, 3)];

// The first edge with ends of opposite depths.
fn first_edge(piece: [Corner; 4]) -> Option<(usize, usize)> {
    for (i, j) in EDGES {
        if i < 4 && j < 4 && are_opposite(piece[i], piece[j]) {
            return Some((i, j));
        }
    }
    None
}

fn is_kept(piece: [Corner; 4]) -> bool {
    let [a, b, c, d] = piece;
    let dry = a.depth.num < 0 || b.depth.num < 0 || c.depth.num < 0 || d.depth.num < 0;
    let wet = 0 < a.depth.num || 0 < b.depth.num || 0 < c.depth.num || 0 < d.depth.num;
    wet && !dry
}

fn replaced(piece: [Corner; 4], place: usize, corner: Corner) -> [Corner; 4] {
    let [a, b, c, d] = piece;
    match place {
        0 => [corner, b, c, d],
        1 => [a, corner, c, d],
        2 => [a, b, corner, d],
        _ => [a, b, c, corner],
    }
}

fn push_kept(pieces: &mut Vec<[Corner; 4]>, piece: [Corner; 4], rounds: u32) -> Option<()> {
    match first_edge(piece) {
        Some((i, j)) if 0 < rounds && i < 4 && j < 4 => {
            let point = crossing(piece[i], piece[j])?;
            push_kept(pieces, replaced(piece, i, point), rounds - 1)?;
            push_kept(pieces, replaced(piece, j, point), rounds - 1)
        }
        _ => {
            if is_kept(piece) {
                pieces.push(piece).ok()?;
            }
            Some(())
        }
    }
}

// A row of the determinant: the way from the first corner.
fn way(p: Corner, q: Corner) -> Option<(Fraction, Fraction, Fraction)> {
    Some((q.x.sub(p.x)?, q.y.sub(p.y)?, q.z.sub(p.z)?))
}

fn minor(a: Fraction, b: Fraction, c: Fraction, d: Fraction) -> Option<Fraction> {
    a.mul(b)?.sub(c.mul(d)?)
}

fn volume_of(piece: [Corner; 4]) -> Option<Fraction> {
    let [a, b, c, d] = piece;
    let (u, v, w) = (way(a, b)?, way(a, c)?, way(a, d)?);
    let x = u.0.mul(minor(v.1, w.2, v.2, w.1)?)?;
    let y = u.1.mul(minor(v.2, w.0, v.0, w.2)?)?;
    let z = u.2.mul(minor(v.0, w.1, v.1, w.0)?)?;
    x.add(y)?.add(z)?.magnitude()?.over(Fraction::whole(6))
}

/// The volume, and the integrals of x, v and u.
#[derive(Clone, Copy, Debug, PartialEq, Eq)]
pub struct Integrals {
    pub volume: Fraction,
    pub mx: Fraction,
    pub mv: Fraction,
    pub mu: Fraction,
}

impl Integrals {
    fn with(self, plane: Plane, piece: [Corner; 4]) -> Option<Integrals> {
        let volume = volume_of(piece)?;
        let [a, b, c, d] = piece;
        let quarter = volume.over(Fraction::whole(4))?;
        let x = a.x.add(b.x)?.add(c.x)?.add(d.x)?;
        let y = a.y.add(b.y)?.add(c.y)?.add(d.y)?;
        let z = a.z.add(b.z)?.add(c.z)?.add(d.z)?;
        Some(Integrals {
            volume: self.volume.add(volume)?,
            mx: self.mx.add(quarter.mul(x)?)?,
            mv: self.mv.add(quarter.mul(plane.side_distance(y, z)?)?)?,
            mu: self.mu.add(quarter.mul(plane.height(y, z)?)?)?,
        })
    }
}

/// The integrals over the submerged body of a hull, one tetrahedron after another.
pub fn submerged(alloc: Global, hull: &Hull, plane: Plane) -> Option<Integrals> {
    let nought = Fraction::whole(0);
    let mut all = Integrals {
        volume: nought,
        mx: nought,
        mv: nought,
        mu: nought,
    };
    for t in &tets_of(alloc, hull).ok()? {
        let [a, b, c, d] = t.n;
        let whole = [
            plane.corner(a)?,
            plane.corner(b)?,
            plane.corner(c)?,
            plane.corner(d)?,
        ];
        let mut pieces = Vec::new(alloc);
        push_kept(&mut pieces, whole, 4)?;
        for piece in &pieces {
            all = all.with(plane, *piece)?;
        }
    }
    Some(all)
}
