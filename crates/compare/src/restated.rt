// The rules of the books, stated once more from their description, rule by rule.
// Knows nothing of how the books are programmed.
use counterpoint::moments::{Accent, Moment, Succession, Voice};

/// The book below all layers.
#[derive(Clone, Copy)]
pub enum Base {
    Strict,
    Free,
}

/// The rules of a book under at most two layers, each of which has a shift.
#[derive(Clone, Copy)]
pub struct Rules {
    pub base: Base,
    /// The layer over the base.
    pub inner: Option<i32>,
    /// The layer over that one.
    pub outer: Option<i32>,
}

// The class of an interval.
fn class(interval: i32) -> u32 {
    interval.unsigned_abs() % 7
}

// Whether an interval is a dissonance.
fn is_dissonance(interval: i32) -> bool {
    matches!(class(interval), 1 | 3 | 6)
}

// Whether two intervals are both of class 0 or both of class 4.
fn are_both_perfect(first: i32, second: i32) -> bool {
    matches!((class(first), class(second)), (0, 0) | (4, 4))
}

// Whether both voices go up, or both go down.
fn is_direct(dx: i32, dc: i32) -> bool {
    dx > 0 && dc > 0 || dx < 0 && dc < 0
}

// The step of the only voice that is struck, if only one is.
fn struck_step(moment: Moment, dx: i32, dc: i32) -> Option<i32> {
    match (moment.line, moment.theme) {
        (Voice::Struck, Voice::Held) => Some(dx),
        (Voice::Held, Voice::Struck) => Some(dc),
        _ => None,
    }
}

// Rules 1 to 4 of the strict book: leaps, perfect consonances, dissonances in a row.
fn moves_strictly(first: i32, second: i32, dx: i32, dc: i32) -> bool {
    !(dx.unsigned_abs() == 6 || dx.unsigned_abs() > 7)
        && !(is_direct(dx, dc) && matches!(class(second), 0 | 4))
        && !(dx != 0 && dc != 0 && are_both_perfect(first, second))
        && !(is_dissonance(first) && is_dissonance(second))
}

// Rules 5 and 6 of the strict book: how a dissonance is struck and entered.
fn enters_strictly(second: Moment, dx: i32, dc: i32) -> bool {
    match (second.accent, struck_step(second, dx, dc)) {
        (Accent::Weak, Some(step)) => step.unsigned_abs() == 1,
        (Accent::Strong, Some(_)) => true,
        (_, None) => false,
    }
}

// Rules 5, 7 and 8 of the strict book: how a dissonance is struck and left.
fn leaves_strictly(first: Moment, dx: i32, dc: i32) -> bool {
    match first.accent {
        Accent::Weak => matches!(struck_step(first, dx, dc), Some(1 | -1)),
        // the held voice is the other one
        Accent::Strong => matches!(struck_step(first, dc, dx), Some(-1)),
    }
}

impl Base {
    // Whether a moment is admitted.
    fn admits(self, moment: Moment) -> bool {
        let refused = match self {
            Base::Strict => struck_step(moment, 0, 0).is_none(),
            Base::Free => matches!(
                (moment.line, moment.theme, moment.accent),
                (Voice::Struck, Voice::Struck, Accent::Strong)
            ),
        };
        moment.interval.unsigned_abs() <= 100 && !(refused && is_dissonance(moment.interval))
    }

    // Whether the steps from one moment to another are allowed.
    fn allows(self, first: Moment, second: Moment, dx: i32, dc: i32) -> bool {
        match self {
            Base::Strict => {
                moves_strictly(first.interval, second.interval, dx, dc)
                    && (!is_dissonance(second.interval) || enters_strictly(second, dx, dc))
                    && (!is_dissonance(first.interval) || leaves_strictly(first, dx, dc))
            }
            Base::Free => {
                let parallel = are_both_perfect(first.interval, second.interval);
                dx.unsigned_abs() <= 9 && !(is_direct(dx, dc) && parallel)
            }
        }
    }

    // Whether a succession is allowed, and its first moment admitted, with the line raised.
    fn agrees(self, succession: Succession, by: i32) -> bool {
        let Succession { first, dx, dc, .. } = succession;
        let interval = first.interval.wrapping_add(by);
        let second = Moment {
            interval: interval.wrapping_add(dx).wrapping_sub(dc),
            line: succession.line,
            theme: succession.theme,
            accent: succession.accent,
        };
        let first = Moment { interval, ..first };
        dx.unsigned_abs() <= 23
            && dc.unsigned_abs() <= 23
            && second.interval.unsigned_abs() <= 100
            && self.admits(first)
            && self.allows(first, second, dx, dc)
    }
}

impl Rules {
    // Whether the inner layer says yes with the line raised: as the base does to it, and to it raised once more.
    fn agrees_inside(self, succession: Succession, by: i32) -> bool {
        self.base.agrees(succession, by)
            && self.inner.is_none_or(|shift| self.base.agrees(succession, by.wrapping_add(shift)))
    }

    /// Whether a succession is allowed and its first moment admitted, under all layers.
    pub(crate) fn agrees(self, succession: Succession) -> bool {
        self.agrees_inside(succession, 0)
            && self
                .outer
                .is_none_or(|shift| self.agrees_inside(succession, shift))
    }
}
