// The trait of books: what judges moments and successions.
// Knows nothing of the rules of any one book.
ghost use Rattle.std.specs.Prelude.{◌≡◌, Bool};
ghost use Rattle.counterpoint.specs.Books.{Bounded};
ghost use Rattle.counterpoint.specs.declared.moments.Moment.{Moment};
ghost use Rattle.counterpoint.specs.declared.moments.Succession.{Succession};

use crate::moments::{Moment, Succession};

/// A book of rules. It means a set of moments and a set of successions, and says yes to their
/// members however often it is asked.
pub trait Book {
    ghost admits: { Self → Moment → Bool };

    ghost allows: { Self → Succession → Bool };

    /// Whether the book admits a moment.
    fn admits(&self, moment: Moment) -> bool
        ensures { result ≡ admits self.now moment };

    /// Whether the book allows a succession.
    fn allows(&self, succession: Succession) -> bool
        ensures { result ≡ allows self.now succession };

    // No book says yes to an interval beyond 100, or to a step beyond 23, either way.
    ghost bounded: { (book : Self) → Bounded (admits book) (allows book) };
}
