// The gap in which the longest safe length is sought.
ghost use Rattle.std.specs.Prelude.{◌≡◌, true, false, pos, ◌-ℤ◌, ◌≤ℤ◌, ◌<ℤ◌};

use crate::Reason;
use damage_box::DraftBox;

/// Two numbers of steps: `safe` is safe, with the box `at`, and the greater `next` isn't, for `reason`.
#[derive(Clone, Copy, Debug)]
pub(crate) struct Gap {
    pub(crate) safe: i64,
    pub(crate) at: DraftBox,
    pub(crate) next: i64,
    pub(crate) reason: Reason,
}

impl Gap {
    /// Whether a number of steps lies between the two.
    pub(crate) fn is_wide(&self) -> bool
        requires from { pos 0 ≤ℤ self.now.safe }
        requires most { self.now.next ≤ℤ pos 524288 }
        requires order { self.now.safe <ℤ self.now.next }
        ensures pass { result ≡ true → pos 1 <ℤ (self.now.next -ℤ self.now.safe) }
        ensures fail { result ≡ false → (self.now.next -ℤ self.now.safe) ≤ℤ pos 1 }
    {
        self.next - self.safe > 1
    }

    /// The part from a number of steps that is safe, with its box, on.
    pub(crate) fn above(&self, safe: i64, at: DraftBox) -> Gap
        ensures safe { result.safe ≡ safe }
        ensures at { result.at ≡ at }
        ensures next { result.next ≡ self.now.next }
        ensures reason { result.reason ≡ self.now.reason }
    {
        Gap {
            safe,
            at,
            next: self.next,
            reason: self.reason,
        }
    }

    /// The part up to a number of steps that isn't safe, for a reason.
    pub(crate) fn below(&self, next: i64, reason: Reason) -> Gap
        ensures safe { result.safe ≡ self.now.safe }
        ensures at { result.at ≡ self.now.at }
        ensures next { result.next ≡ next }
        ensures reason { result.reason ≡ reason }
    {
        Gap {
            safe: self.safe,
            at: self.at,
            next,
            reason,
        }
    }
}
