// The vertical layer: a book over any other, which judges a line and its shifted form at once.
// Knows nothing of the rules of the book below.
ghost use Rattle.std.specs.Prelude.{◌≡◌, true, false, MatchResult};
ghost use Rattle.counterpoint.specs.Interval.{shift_in_range};
ghost use Rattle.books.specs.Vertical.{vertical_admits, vertical_allows};
ghost use Rattle.std.proofs.Common.{rules};

use crate::raising::{raise, raise_both};
use counterpoint::book::Book;
use counterpoint::interval::is_shift_in_range;
use counterpoint::moments::{Moment, Succession};
use counterpoint::refusal::Refusal;

/// A book that says yes to a question exactly if the book below says yes to it, and to the same
/// question with the line raised by the shift.
#[derive(PartialEq, Eq, Hash, Debug, Drop)]
pub struct Vertical<B> {
    below: B,
    shift: i32,
    ghost narrow: { shift_in_range shift ≡ true },
}

impl<B: Book + Drop> Vertical<B> {
    /// A layer over a book, refused where the shift is not -23 to 23.
    pub fn new(below: B, shift: i32) -> Result<Vertical<B>, Refusal>
        ensures { MatchResult result (λ layer. (shift_in_range shift ≡ true) × (layer.below ≡ below) × (layer.shift ≡ shift)) (λ e. (shift_in_range shift ≡ false) × (e ≡ Refusal.ShiftOutOfRange)) }
    {
        if !is_shift_in_range(shift) {
            return Err(Refusal::ShiftOutOfRange);
        }
        Ok(Vertical { below, shift })
    }
}

impl<B: Book> Book for Vertical<B> {
    ghost admits = { λ layer. vertical_admits (B.admits layer.below) layer.shift };

    ghost allows = { λ layer. vertical_allows (B.allows layer.below) layer.shift };

    ghost bounded = { Prim.search rules };

    fn admits(&self, moment: Moment) -> bool {
        self.below.admits(moment) && self.below.admits(raise(moment, self.shift))
    }

    fn allows(&self, succession: Succession) -> bool {
        self.below.allows(succession) && self.below.allows(raise_both(succession, self.shift))
    }
}
