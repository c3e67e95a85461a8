// Neighbours at which a test changes.
ghost use Rattle.std.specs.Prelude.{◌≡◌, ◌⊎◌, true, false, ℤ, pos, ◌+ℤ◌, ◌-ℤ◌, ◌≤ℤ◌, ◌<ℤ◌};
ghost use Rattle.damage_box.specs.Balance.{IsFar};

use crate::secant::Secant;

/// What a look at a level says: whether it passes a test, and by how much.
#[derive(Clone, Copy, Debug)]
pub(crate) struct Look {
    pub(crate) is_passed: bool,
    pub(crate) over: i128,
}

/// A test of a level.
pub(crate) trait Test {
    /// The condition of the test.
    ghost can: { Self → ℤ → Type 0 };

    /// What is known where it passes, and where it fails.
    ghost passes: { Self → ℤ → Type 0 };

    ghost fails: { Self → ℤ → Type 0 };

    /// Whether the level passes the test, and by how much it does.
    fn look(&self, level: i64) -> Look
        requires { can self.now level }
        ensures pass { result.is_passed ≡ true → passes self.now level }
        ensures fail { result.is_passed ≡ false → fails self.now level };
}

// The level nearest to `wish` that lies strictly between the two.
pub(crate) fn between(low: i64, high: i64, wish: i64) -> i64
    requires low_level { IsFar low }
    requires room { (low +ℤ pos 1) <ℤ high }
    ensures above { low <ℤ result }
    ensures below { result <ℤ high }
{
    if wish <= low {
        low + 1
    } else if wish >= high {
        high - 1
    } else {
        wish
    }
}

/// The upper of two neighbours from `low` to `high`, of which the lower fails a test or is `low`, and the upper passes it or is `high`.
pub(crate) fn crossing<T: Test>(test: &T, guess: Secant, low: i64, high: i64) -> i64
    requires low_level { IsFar low }
    requires high_level { IsFar high }
    requires order { low <ℤ high }
    requires can { (x : ℤ) → low <ℤ x → x <ℤ high → T.can test.now x }
    ensures from { low <ℤ result }
    ensures to { result ≤ℤ high }
    ensures lower { (result ≡ low +ℤ pos 1) ⊎ T.fails test.now (result -ℤ pos 1) }
    ensures upper { (result ≡ high) ⊎ T.passes test.now result }
{
    let mut guess = guess;
    let mut failed = low;
    let mut passed = high;
    while passed - failed > 1 {
        let wish = guess.level(failed, passed);
        let level = between(failed, passed, wish);
        let look = test.look(level);
        guess.learn(level, look.over);
        if look.is_passed {
            passed = level;
        } else {
            failed = level;
        }
    }
    passed
}
