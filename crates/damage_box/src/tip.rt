// The ends of a ship that lie deeper.

/// Which end of the ship lies deeper at a corner of a box of levels: its forward end at `a1` and `f2`, its after end at
/// `a2` and `f1`.
#[derive(Clone, Copy, Debug, PartialEq, Eq)]
pub enum Tip {
    Fore,
    Aft,
}
