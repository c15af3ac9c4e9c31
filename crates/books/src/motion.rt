// How two voices move from one moment to the next.
// Knows nothing of books.
ghost use Rattle.std.specs.Prelude.{◌≡◌, true, false, MatchOption};
ghost use Rattle.counterpoint.specs.Moments.{succession_in_range, second_moment};
ghost use Rattle.books.specs.Motion.{similar, both_move, struck_step, held_step, one_perfect_class, parallel};

use counterpoint::interval::{class, is_perfect};
use counterpoint::moments::{Moment, Succession, Voice};

// The steps of the two voices.
#[derive(Clone, Copy)]
pub(crate) struct Steps {
    pub line: i32,
    pub theme: i32,
}

impl Steps {
    // Whether both voices go up, or both go down.
    pub(crate) fn are_similar(self) -> bool
        ensures { result ≡ similar self.line self.theme }
    {
        self.line > 0 && self.theme > 0 || self.line < 0 && self.theme < 0
    }

    // Whether both voices move.
    pub(crate) fn both_move(self) -> bool
        ensures { result ≡ both_move self.line self.theme }
    {
        self.line != 0 && self.theme != 0
    }

    // The steps of the struck voice and of the held one, at a moment with one voice held.
    pub(crate) fn struck_and_held(self, moment: Moment) -> (i32, i32)
        ensures { result ≡ (struck_step moment self.line self.theme, held_step moment self.line self.theme) }
    {
        match moment.line {
            Voice::Struck => (self.line, self.theme),
            Voice::Held => (self.theme, self.line),
        }
    }
}

// Two moments in a row, and the steps from the one to the other.
#[derive(Clone, Copy)]
pub(crate) struct Motion {
    pub first: Moment,
    pub second: Moment,
    pub steps: Steps,
}

impl Motion {
    // The motion of a succession, or none where it is out of range.
    pub(crate) fn of(succession: Succession) -> Option<Motion>
        ensures { MatchOption result
            (succession_in_range succession ≡ false)
            (λ motion. (succession_in_range succession ≡ true) × (motion ≡ record { first = succession.first; second = second_moment succession; steps = record { line = succession.dx; theme = succession.dc } })) }
    {
        let steps = Steps {
            line: succession.dx,
            theme: succession.dc,
        };
        Some(Motion {
            first: succession.first,
            second: succession.second()?,
            steps,
        })
    }

    // Whether both intervals are of one class, and that a perfect one.
    pub(crate) fn keeps_perfect_class(self) -> bool
        ensures { result ≡ one_perfect_class self.first.interval self.second.interval }
    {
        class(self.first.interval) == class(self.second.interval) && is_perfect(self.first.interval)
    }

    // Whether both voices go up, or both down, between two intervals of one perfect class.
    pub(crate) fn is_parallel(self) -> bool
        ensures { result ≡ parallel self.first.interval self.second.interval self.steps.line self.steps.theme }
    {
        self.keeps_perfect_class() && self.steps.are_similar()
    }
}
