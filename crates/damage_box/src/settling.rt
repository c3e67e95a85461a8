// The box of a flooded ship, or why there is none.
ghost use Rattle.damage_box.specs.Faults.{IsFault, IsSettled};
ghost use Rattle.damage_box.specs.Reading.{IsSinking, IsAfloat};
ghost use Rattle.std.specs.Prelude.{◌≡◌, IfOk, IfErr, ℤ};

use crate::DraftBox;
use crate::draft_box::box_from;
use crate::floats::Floats;
use crate::looks::is_at_most;
use crate::mirror::{Mirrored, turned_back};
use crate::model::model_of;
use crate::reading::Corner;
use crate::starts::start;
use crate::tip::Tip;
use outward_interval::Span;

/// Why there is no box of levels.
#[derive(Debug, Drop)]
pub enum SettleFault {
    /// The volume in mm³ that is left of the whole hull lies below the one that the load displaces.
    Sinks { left: Span<20> },
    /// No corner from which a search may start qualifies: on each of the sixteen slopes 2^4 to 2^19 mm the plane below
    /// which about enough is left.
    NoStart { tip: Tip, tried: [Corner; 16] },
}

/// The volume of the whole hull: where it lies below the need, the ship sinks.
fn afloat<F: Floats>(floats: &F) -> Result<Span<20>, Span<20>>
    ensures ok { IfOk result (λ s. IsAfloat (F.balance floats.now)) }
    ensures sinks { IfErr result (λ s. IsSinking (F.balance floats.now) s.lo s.hi) }
{
    let level = floats.high();
    let reading = floats.read(level, level);
    let need = floats.need();
    if is_at_most(need, reading.volume.hi()) {
        Ok(reading.volume)
    } else {
        Err(reading.volume)
    }
}

/// A sharp box, or why there is none.
pub(crate) fn settled<F: Floats>(floats: &F) -> Result<DraftBox, SettleFault>
    ensures ok { IfOk result (λ d. IsSettled (F.balance floats.now) d) }
    ensures fault { IfErr result (λ e. IsFault (F.balance floats.now) e) }
{
    let whole = match afloat(floats) {
        Ok(whole) => whole,
        Err(left) => return Err(SettleFault::Sinks { left }),
    };
    let model = model_of(floats, whole.lo());
    let fore = match start(floats, &model) {
        Ok(corner) => corner,
        Err(tried) => {
            return Err(SettleFault::NoStart {
                tip: Tip::Fore,
                tried,
            });
        }
    };
    let seen = Mirrored { floats };
    let aft = match start(&seen, &model.turned()) {
        Ok(corner) => corner,
        Err(tried) => {
            return Err(SettleFault::NoStart {
                tip: Tip::Aft,
                tried: turned_back(&tried),
            });
        }
    };
    Ok(box_from(floats, &model, fore, aft))
}
