// A part of the ship between two transverse planes.
ghost use Rattle.std.specs.Prelude.{◌≡◌, ◌↔◌, IsSome, IfSome};
ghost use Rattle.hull_model.specs.Limits.{IsSlab};

/// The greatest x of a slab's fore end, in mm.
const MOST_X: i64 = 524287;

/// The greatest permeability, in thousandths.
const MOST_PERMEABILITY: u32 = 1000;

/// The part of the ship from one x to another, and how much of it floods.
///
/// `aft` and `fore` are in whole mm, `0 ≤ aft < fore ≤ 524287`. Of each volume in the slab `permeability`
/// thousandths are lost where it floods, from 0 to 1000. A slab may reach past the hull.
#[derive(Clone, Copy, Debug, PartialEq, Eq)]
pub struct Slab {
    pub aft: i64,
    pub fore: i64,
    pub permeability: u32,
    ghost limits: { IsSlab aft fore permeability },
}

impl Slab {
    /// The slab of these planes and this permeability: Some exactly where `0 ≤ aft < fore ≤ 524287` and
    /// `permeability ≤ 1000`.
    pub fn new(aft: i64, fore: i64, permeability: u32) -> Option<Slab>
        ensures some { IsSome result ↔ IsSlab aft fore permeability }
        ensures same { IfSome result (λ slab. (slab.aft ≡ aft) × (slab.fore ≡ fore) × (slab.permeability ≡ permeability)) }
    {
        if 0 <= aft && aft < fore && fore <= MOST_X && permeability <= MOST_PERMEABILITY {
            Some(Slab {
                aft,
                fore,
                permeability,
            })
        } else {
            None
        }
    }
}

#[cfg(test)]
mod tests {
    use super::*;

    #[test]
    fn new_at_its_limits(rt: HostRuntime) {
        for (aft, fore, permeability, want) in [
            (0, 1, 0, true),
            (0, 524287, 1000, true),
            (524286, 524287, 850, true),
            (-1, 1, 850, false),
            (5, 5, 850, false),
            (6, 5, 850, false),
            (0, 524288, 850, false),
            (0, 1, 1001, false),
        ] {
            let slab = Slab::new(aft, fore, permeability);
            assert_eq!(rt; slab.is_some(), want, "{aft} {fore} {permeability}");
            if let Some(slab) = slab {
                assert_eq!(rt;
                    (slab.aft, slab.fore, slab.permeability),
                    (aft, fore, permeability)
                );
            }
        }
    }
}
