// Whole degrees.
ghost use Rattle.std.specs.Prelude.{◌≡◌, ◌↔◌, ◌≤◌, IsSome, IfSome};

/// A whole number of degrees, from 0 to 90.
#[derive(Clone, Copy, Debug, PartialEq, Eq)]
pub struct Degree {
    degrees: u32,
    ghost most: { degrees ≤ 90 },
}

impl Degree {
    /// This many degrees: Some exactly from 0 to 90.
    pub fn new(k: u32) -> Option<Degree>
        ensures some { IsSome result ↔ (k ≤ 90) }
        ensures same { IfSome result (λ degree. degree.degrees ≡ k) }
    {
        if k <= 90 {
            Some(Degree { degrees: k })
        } else {
            None
        }
    }

    /// How many, from 0 to 90.
    pub fn get(&self) -> u32
        ensures same { result ≡ self.now.degrees }
        ensures most { result ≤ 90 }
    {
        self.degrees
    }
}
