// The box of levels in which the ship floats.
ghost use Rattle.std.specs.Prelude.{◌≡◌, ℤ, ◌≤ℤ◌};
ghost use Rattle.flux_moments.specs.Limits.{AreLevels};
ghost use Rattle.damage_box.specs.Reading.{IsStart};
ghost use Rattle.damage_box.specs.Balance.{IsLevel, HasSigns, IsSharpBox, mirrored};

use crate::floats::Floats;
use crate::inwards::narrowed;
use crate::mirror::Mirrored;
use crate::model::Model;
use crate::reading::{Corner, Place};

/// Levels from `a1` to `a2` at the first station and from `f1` to `f2` at the last, in grid units of 1/1024 mm.
///
/// It keeps `a1 ≤ a2` and `f1 ≤ f2`, and that no level is above 2^30 in magnitude.
#[derive(Clone, Copy, Debug, PartialEq, Eq)]
pub struct DraftBox {
    pub a1: i64,
    pub a2: i64,
    pub f1: i64,
    pub f2: i64,
    ghost levels: { AreLevels a1 a2 f1 f2 },
}

/// The box between two corners that have their signs, with both moved inwards.
fn narrowed_box<F: Floats>(floats: &F, model: &Model, fore: Place, aft: Place) -> DraftBox
    requires fore_a { IsLevel fore.a }
    requires fore_f { IsLevel fore.f }
    requires aft_a { IsLevel aft.a }
    requires aft_f { IsLevel aft.f }
    requires a_order { fore.a ≤ℤ aft.a }
    requires f_order { aft.f ≤ℤ fore.f }
    requires fore_signs { HasSigns (F.balance floats.now) fore.a fore.f }
    requires aft_signs { HasSigns (mirrored (F.balance floats.now)) aft.f aft.a }
    ensures { IsSharpBox (F.balance floats.now) result.a1 result.a2 result.f1 result.f2 }
{
    let front = narrowed(floats, model, fore, aft);
    let seen = Mirrored { floats };
    let back = narrowed(
        &seen,
        &model.turned(),
        Place { a: aft.f, f: aft.a },
        Place {
            a: front.f,
            f: front.a,
        },
    );
    DraftBox {
        a1: front.a,
        a2: back.f,
        f1: back.a,
        f2: front.f,
    }
}

/// The box from two candidates that qualify, of which the aft one is seen from the other end.
pub(crate) fn box_from<F: Floats>(floats: &F, model: &Model, fore: Corner, aft: Corner) -> DraftBox
    requires fore_a { IsLevel fore.a }
    requires fore_f { IsLevel fore.f }
    requires aft_a { IsLevel aft.a }
    requires aft_f { IsLevel aft.f }
    requires fore_start { IsStart (F.balance floats.now) fore }
    requires aft_start { IsStart (mirrored (F.balance floats.now)) aft }
    ensures { IsSharpBox (F.balance floats.now) result.a1 result.a2 result.f1 result.f2 }
{
    // The corners of a hull lie apart by themselves.
    let aft = Place {
        a: at_least(aft.f, fore.a),
        f: at_most(aft.a, fore.f),
    };
    let fore = Place {
        a: fore.a,
        f: fore.f,
    };
    narrowed_box(floats, model, fore, aft)
}

fn at_least(level: i64, least: i64) -> i64
    requires level { IsLevel level }
    requires least { IsLevel least }
    ensures order { least ≤ℤ result }
    ensures level { IsLevel result }
    ensures same { least ≤ℤ level → result ≡ level }
{
    if level < least { least } else { level }
}

fn at_most(level: i64, most: i64) -> i64
    requires level { IsLevel level }
    requires most { IsLevel most }
    ensures order { result ≤ℤ most }
    ensures level { IsLevel result }
    ensures same { level ≤ℤ most → result ≡ level }
{
    if level > most { most } else { level }
}
