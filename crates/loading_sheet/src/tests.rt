ghost use Rattle.std.specs.Prelude.{◌≡◌, ◌≤◌, ◌^◌};
// Loadings worked by hand.
use crate::{LoadFault, load};
use hull_model::Water;
use job_reader::Item;
use outward_interval::Span;

fn ends(span: Span<20>) -> (i128, i128) {
    (span.lo(), span.hi())
}

// 3 t at (10 m, -1 m, 2 m) with a free surface of 1.5 t·m, and 1 t at (2 m, 1 m, 4 m): the centre is at (8 m, -0.5 m, 2.5 m),
// raised by 375 mm.
#[test]
fn two_items(rt: HostRuntime) {
    let items = [
        Item {
            mass: 3000,
            x: 10000,
            y: -1000,
            z: 2000,
            free_surface: 1500,
        },
        Item {
            mass: 1000,
            x: 2000,
            y: 1000,
            z: 4000,
            free_surface: 0,
        },
    ];
    let water = Water {
        density: 1000,
        length_bp: 1,
    };
    match load(&items) {
        Ok(loading) => {
            assert_eq!(rt; (loading.mass, loading.mx), (4000, 32_000_000));
            assert_eq!(rt; (loading.my, loading.mz), (-2_000_000, 11_500_000));
            assert_eq!(rt; ends(loading.lcg()), (8000 << 20, 8000 << 20));
            assert_eq!(rt; ends(loading.tcg()), (-500 << 20, -500 << 20));
            assert_eq!(rt; ends(loading.kg()), (2875 << 20, 2875 << 20));
            let volume = loading.volume(&water);
            assert_eq!(rt; (volume.num(), volume.den()), (4_000_000_000_000, 1000));
        }
        Err(_) => assert!(rt; false),
    }
}

fn item(mass: u64) -> Item
    requires { mass ≤ 2 ^ 36 }
    ensures { result.mass ≡ mass }
{
    Item {
        mass,
        x: 0,
        y: 0,
        z: 0,
        free_surface: 0,
    }
}

#[test]
fn masses_at_their_limits(rt: HostRuntime) {
    assert_eq!(rt; load(&[]), Err(LoadFault::NoMass));
    assert_eq!(rt; load(&[item(0), item(0)]), Err(LoadFault::NoMass));
    assert!(rt; load(&[item(1)]).is_ok());
    assert!(rt; load(&[item(1 << 36), item(0)]).is_ok());
    assert_eq!(rt;
        load(&[item(1 << 36), item(1 << 36)]),
        Err(LoadFault::MassRange {
            sum: 137_438_953_472
        })
    );
    assert_eq!(rt;
        load(&[item(1 << 36), item(1)]),
        Err(LoadFault::MassRange {
            sum: 68_719_476_737
        })
    );
}
