// The words of a line, one after the other.
ghost use Rattle.std.specs.Prelude.{◌≡◌, ◌≤◌, IfSome};
ghost use Rattle.hull_report.specs.Reading as reading;

use crate::line::Sides;
use crate::names::{Command, Finding, SideLine};
use crate::word;
use outward_interval::Figure;

/// GZ and the area below it, on one side.
#[derive(Clone, Copy)]
pub(crate) struct Lever {
    pub(crate) gz: Figure,
    pub(crate) area: Figure,
}

/// The words of a line that aren't read yet, parted by spaces.
#[derive(Clone, Copy)]
pub(crate) struct Words<'a> {
    rest: &'a [u8],
}

impl<'a> Words<'a> {
    pub(crate) fn of(rest: &'a [u8]) -> Words<'a>
        ensures { result.rest.now ≡ rest.now }
    {
        Words { rest }
    }

    /// The next word; empty behind the last.
    #[tactic(auto, unfolding(crate::specs::Reading::word_at))]
    pub(crate) fn next(&mut self) -> &'a [u8]
        ensures { (result.now, self.new.rest.now) ≡ reading.word_at self.old.rest.now }
    {
        let (word, rest) = word::cut(self.rest, b' ').unwrap_or((self.rest, &[]));
        self.rest = rest;
        word
    }

    #[tactic(auto, unfolding(crate::specs::Reading::u32_at))]
    pub(crate) fn u32(&mut self) -> Option<u32>
        ensures { reading.Reads result self.new.rest.now (reading.u32_at self.old.rest.now) }
    {
        u32::try_from(word::unsigned(self.next())?).ok()
    }

    #[tactic(auto, unfolding(crate::specs::Reading::u64_at))]
    pub(crate) fn u64(&mut self) -> Option<u64>
        ensures { reading.Reads result self.new.rest.now (reading.u64_at self.old.rest.now) }
    {
        u64::try_from(word::unsigned(self.next())?).ok()
    }

    #[tactic(auto, unfolding(crate::specs::Reading::i64_at))]
    pub(crate) fn i64(&mut self) -> Option<i64>
        ensures { reading.Reads result self.new.rest.now (reading.i64_at self.old.rest.now) }
    {
        i64::try_from(word::signed(self.next())?).ok()
    }

    #[tactic(auto, unfolding(crate::specs::Reading::i128_at))]
    pub(crate) fn i128(&mut self) -> Option<i128>
        ensures { reading.Reads result self.new.rest.now (reading.i128_at self.old.rest.now) }
    {
        word::signed(self.next())
    }

    #[tactic(auto, unfolding(crate::specs::Reading::figure_at))]
    pub(crate) fn figure(&mut self) -> Option<Figure>
        ensures { reading.Reads result self.new.rest.now (reading.figure_at self.old.rest.now) }
    {
        word::figure(self.next())
    }

    /// A figure, or none where the word is a dash.
    #[tactic(auto, unfolding(crate::specs::Reading::absent_at))]
    pub(crate) fn figure_or_absent(&mut self) -> Option<Option<Figure>>
        ensures { reading.Reads result self.new.rest.now (reading.absent_at self.old.rest.now) }
    {
        let mut ahead = *self;
        if ahead.next() == b"-".as_slice() {
            *self = ahead;
            return Some(None);
        }
        Some(Some(self.figure()?))
    }

    #[tactic(auto, unfolding(crate::specs::Reading::version_at))]
    pub(crate) fn version(&mut self) -> Option<u32>
        ensures value { reading.Reads result self.new.rest.now (reading.version_at self.old.rest.now) }
        ensures range { IfSome result (λ n. (1 ≤ n) × (n ≤ 2)) }
    {
        word::version(self.next())
    }

    #[tactic(auto, unfolding(crate::specs::Reading::criterion_at))]
    pub(crate) fn criterion(&mut self) -> Option<u32>
        ensures value { reading.Reads result self.new.rest.now (reading.criterion_at self.old.rest.now) }
        ensures range { IfSome result (λ n. (1 ≤ n) × (n ≤ 6)) }
    {
        word::criterion(self.next())
    }

    #[tactic(auto, unfolding(crate::specs::Reading::command_at))]
    pub(crate) fn command(&mut self) -> Option<Command>
        ensures { reading.Reads result self.new.rest.now (reading.command_at self.old.rest.now) }
    {
        word::command(self.next())
    }

    #[tactic(auto, unfolding(crate::specs::Reading::finding_at))]
    pub(crate) fn finding(&mut self) -> Option<Finding>
        ensures { reading.Reads result self.new.rest.now (reading.finding_at self.old.rest.now) }
    {
        word::finding(self.next())
    }

    /// The side, where the next word is one; else that word stays.
    #[tactic(auto, unfolding(crate::specs::Reading::side_at))]
    pub(crate) fn side(&mut self) -> Option<SideLine>
        ensures { (result, self.new.rest.now) ≡ reading.side_at self.old.rest.now }
    {
        let mut ahead = *self;
        let side = word::side(ahead.next())?;
        *self = ahead;
        Some(side)
    }

    #[tactic(auto, unfolding(crate::specs::Reading::lever_at))]
    pub(crate) fn lever(&mut self) -> Option<Lever>
        ensures { reading.Reads result self.new.rest.now (reading.lever_at self.old.rest.now) }
    {
        Some(Lever {
            gz: self.figure()?,
            area: self.figure()?,
        })
    }

    /// The four sides of a box.
    #[tactic(auto, unfolding(crate::specs::Reading::sides_at))]
    pub(crate) fn sides(&mut self) -> Option<Sides>
        ensures { result ≡ reading.sides_at self.old.rest.now }
    {
        Some(Sides {
            a1: self.i64()?,
            a2: self.i64()?,
            f1: self.i64()?,
            f2: self.i64()?,
        })
    }
}
