// The same ship seen from its other end.
ghost use Rattle.std.specs.Prelude.{◌≡◌, ◌<◌, ℕ, ℤ};
ghost use Rattle.damage_box.specs.Balance.{mirrored, mirrored-rises};
ghost use Rattle.damage_box.specs.Candidates.{IsAt};
ghost use Rattle.damage_box.specs.Faults as faults;
ghost use Rattle.damage_box.specs.declared.reading.Corner.{Corner};

use crate::floats::Floats;
use crate::reading::{Corner, Reading};

/// What floats, with its ends exchanged: so the aft corner of a box is the fore corner.
#[derive(Drop)]
pub(crate) struct Mirrored<'a, F> {
    pub floats: &'a F,
}

impl<F: Floats> Floats for Mirrored<'_, F> {
    ghost balance = { λ s. mirrored (F.balance s.floats.now) };

    fn low(&self) -> i64 {
        self.floats.low()
    }

    fn high(&self) -> i64 {
        self.floats.high()
    }

    fn length(&self) -> i64 {
        self.floats.length()
    }

    fn need(&self) -> i128 {
        self.floats.need()
    }

    fn read(&self, a: i64, f: i64) -> Reading {
        let reading = self.floats.read(f, a);
        Reading {
            volume: reading.volume,
            from_last: reading.from_first,
            from_first: reading.from_last,
        }
    }

    ghost rises = { λ s. mirrored-rises (F.rises s.floats.now) };

    ghost ordered = { λ s. F.ordered s.floats.now };
}

/// Corners that were tried from the other end.
pub(crate) fn turned_back(tried: &[Corner; 16]) -> [Corner; 16]
    ensures { (k : ℕ) → k < 16 → (c : Corner) → IsAt result k c → IsAt tried.now k (faults.turned c) }
{
    let mut back = *tried;
    for j in 0..16usize {
        back[j] = turned(&tried[j]);
    }
    back
}

fn turned(corner: &Corner) -> Corner
    ensures { result ≡ faults.turned corner.now }
{
    Corner {
        a: corner.f,
        f: corner.a,
        r1: corner.r2,
        r2: corner.r1,
    }
}
