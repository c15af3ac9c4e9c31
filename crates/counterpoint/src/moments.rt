// Moments, in which line and theme sound together, and the successions of two of them.
// Knows nothing of what makes one good or bad.
ghost use Rattle.std.specs.Prelude.{◌≡◌, true, false, MatchOption};
ghost use Rattle.counterpoint.specs.Interval.{shift_in_range};
ghost use Rattle.counterpoint.specs.Moments.{moment_in_range, second_in_range, second_interval, second_moment, succession_in_range};

use crate::interval::{is_interval_in_range, is_shift_in_range};

/// How a voice sounds: struck anew, or held over from the moment before.
#[derive(Clone, Copy, PartialEq, Eq, Hash, Debug)]
pub enum Voice {
    /// It begins to sound here.
    Struck,
    /// It sounds on from the moment before.
    Held,
}

/// Whether a moment falls on a strong place or on a weak one.
#[derive(Clone, Copy, PartialEq, Eq, Hash, Debug)]
pub enum Accent {
    /// The place is accented.
    Strong,
    /// The place is not.
    Weak,
}

/// What sounds together at one place.
#[derive(Clone, Copy, PartialEq, Eq, Hash, Debug)]
pub struct Moment {
    /// The line's key less the theme's.
    pub interval: i32,
    /// How the line sounds.
    pub line: Voice,
    /// How the theme sounds.
    pub theme: Voice,
    /// How the place is accented.
    pub accent: Accent,
}

/// A moment and the way on to the next one, whose interval follows from it.
#[derive(Clone, Copy, PartialEq, Eq, Hash, Debug)]
pub struct Succession {
    /// The moment that is left.
    pub first: Moment,
    /// The step of the line.
    pub dx: i32,
    /// The step of the theme.
    pub dc: i32,
    /// How the line sounds at the second moment.
    pub line: Voice,
    /// How the theme sounds at the second moment.
    pub theme: Voice,
    /// How the place of the second moment is accented.
    pub accent: Accent,
}

impl Succession {
    /// The second moment, or none where an interval is beyond 100 or a step beyond 23, either way.
    pub fn second(self) -> Option<Moment>
        ensures answer { result ≡ second_in_range self }
        ensures cases { MatchOption result (succession_in_range self ≡ false) (λ m. (succession_in_range self ≡ true) × (m ≡ second_moment self)) }
    {
        if !is_interval_in_range(self.first.interval)
            || !is_shift_in_range(self.dx)
            || !is_shift_in_range(self.dc)
        {
            return None;
        }
        let interval = self.second_interval();
        if !is_interval_in_range(interval) {
            return None;
        }
        Some(Moment {
            interval,
            line: self.line,
            theme: self.theme,
            accent: self.accent,
        })
    }

    // The interval that the two steps lead to, where all three are in range.
    fn second_interval(self) -> i32
        requires first { moment_in_range self.first ≡ true }
        requires line { shift_in_range self.dx ≡ true }
        requires theme { shift_in_range self.dc ≡ true }
        ensures { result ≡ second_interval self }
    {
        self.first.interval + self.dx - self.dc
    }
}
