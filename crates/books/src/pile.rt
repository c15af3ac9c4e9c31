// A book under two layers, asked as one book.
// Knows nothing of how a layer judges.
ghost use Rattle.std.specs.Prelude.{◌≡◌, true, false, MatchResult};
ghost use Rattle.books.specs.Vertical.{vertical_admits, vertical_allows, shifts_in_range, pile_answer};

use crate::vertical::Vertical;
use counterpoint::book::Book;
use counterpoint::moments::{Moment, Succession};
use counterpoint::refusal::Refusal;

/// The shifts of two layers, the one over the other.
#[derive(Clone, Copy, PartialEq, Eq, Hash, Debug)]
pub struct Shifts {
    /// The shift of the layer right over the book.
    pub inner: i32,
    /// The shift of the layer over that one.
    pub outer: i32,
}

/// A book under two layers, refused where a shift is not -23 to 23.
pub fn pile<B: Book + Drop>(book: B, shifts: Shifts) -> Result<Vertical<Vertical<B>>, Refusal>
    ensures { MatchResult result
        (λ pile. (shifts_in_range shifts.inner shifts.outer ≡ true) × (pile.below.below ≡ book) × (pile.below.shift ≡ shifts.inner) × (pile.shift ≡ shifts.outer))
        (λ e. (shifts_in_range shifts.inner shifts.outer ≡ false) × (e ≡ Refusal.ShiftOutOfRange)) }
{
    Vertical::new(Vertical::new(book, shifts.inner)?, shifts.outer)
}

/// Whether a book under two layers admits a moment, refused where a shift is not -23 to 23.
pub fn pile_admits<B: Book + Drop>(book: B, shifts: Shifts, moment: Moment) -> Result<bool, Refusal>
    ensures { result ≡ pile_answer shifts.inner shifts.outer (vertical_admits (vertical_admits (B.admits book) shifts.inner) shifts.outer moment) }
{
    Ok(pile(book, shifts)?.admits(moment))
}

/// Whether a book under two layers allows a succession, refused where a shift is not -23 to 23.
pub fn pile_allows<B: Book + Drop>(
    book: B,
    shifts: Shifts,
    succession: Succession,
) -> Result<bool, Refusal>
    ensures { result ≡ pile_answer shifts.inner shifts.outer (vertical_allows (vertical_allows (B.allows book) shifts.inner) shifts.outer succession) }
{
    Ok(pile(book, shifts)?.allows(succession))
}
