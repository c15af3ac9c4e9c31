// What a question is handed: its book, its compass, and as many working values and cells as it says.
ghost use Rattle.std.specs.Prelude.{◌≡◌, min, Some, None, MatchResult};
ghost use Rattle.std.specs.Option.{unwrap_or};
ghost use Rattle.script.specs.Books.{any_admits, any_allows};
ghost use Rattle.script.specs.Names.{named_admits, named_allows, book_no, asked_compass, compass_no};

use super::book::AnyBook;
use super::statement::{BookName, Keys, Options};
use books::vertical::Vertical;
use engine::verdicts::CELLS;
use rules::refusal::Refusal;
use standing::compass::Compass;
use theme::place::HIGHEST_KEY;
use theme::theme::MOST_PLACES;

/// As many cells as the longest line has.
pub const MOST_CELLS: usize = MOST_PLACES;

/// As many working values as any question needs, one for each cell at each place.
pub const MOST_ROOM: usize = CELLS * MOST_PLACES;

/// The keys of a compass of which nothing is said.
const ALL_KEYS: Keys = Keys {
    lowest: 0,
    highest: HIGHEST_KEY,
};

impl BookName {
    /// The book of this name, refused where its layer is.
    pub fn book(self) -> Result<AnyBook, Refusal>
        ensures { MatchResult result (λ book. (book_no self ≡ None) × (any_admits book ≡ named_admits self) × (any_allows book ≡ named_allows self)) (λ refusal. book_no self ≡ Some refusal) }
    {
        let Some(shift) = self.shift else {
            return Ok(AnyBook::Bare(self.rules));
        };
        // a layer is refused for its shift alone
        Vertical::new(self.rules, shift)
            .map(AnyBook::Layered)
            .map_err(|_| Refusal::ShiftOutOfRange)
    }
}

impl Options {
    /// The compass, with its trial in force, refused where the keys or the trial do not fit.
    pub fn compass(self) -> Result<Compass, Refusal>
        ensures { MatchResult result (λ compass. (compass_no self ≡ None) × (compass ≡ asked_compass self)) (λ refusal. compass_no self ≡ Some refusal) }
    {
        let keys = self.keys.unwrap_or(ALL_KEYS);
        let mut compass = Compass::new(keys.lowest, keys.highest)?;
        if let Some(trial) = self.trial {
            compass.inquire(trial)?;
            compass.enter(trial);
        }
        Ok(compass)
    }

    /// How many working values are lent: more than any question needs are lent as that many.
    pub fn room(self) -> usize
        ensures { result ≡ min (unwrap_or self.room 3072) 3072 }
    {
        self.room.unwrap_or(MOST_ROOM).min(MOST_ROOM)
    }

    /// The length of the line buffer: longer than any line is as long as the longest.
    pub fn cells(self) -> usize
        ensures { result ≡ min (unwrap_or self.cells 64) 64 }
    {
        self.cells.unwrap_or(MOST_CELLS).min(MOST_CELLS)
    }
}
