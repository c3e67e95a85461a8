// The volume that a ship displaces, as it is asked of draft brackets.
ghost use Rattle.std.specs.Prelude.{◌≡◌};
ghost use Rattle.exact_fraction.specs.Fraction.{fraction_of};
ghost use Rattle.draft_bracket.specs.DraftBracket.{IsNeed};
ghost use Rattle.loading_sheet.specs.Centre.{displaced};

use exact_fraction::Ratio;
use hull_model::Water;
use loading_sheet::Loading;

pub(crate) fn need_of(loading: &Loading, water: &Water) -> Ratio
    ensures same { fraction_of result ≡ displaced loading.now water.now }
    ensures need { IsNeed result }
{
    loading.volume(water)
}
