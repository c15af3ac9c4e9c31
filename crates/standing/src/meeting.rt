// How a line meets the theme in a combination: the moments and successions that a book is asked.
// Knows nothing of compasses or books.
ghost use Rattle.std.specs.Prelude.{◌≡◌, ◌+◌, ◌<◌, ◌≤◌, true, length, pos, ◌+ℤ◌, ◌-ℤ◌, neg_ℤ, ◌≤ℤ◌};
ghost use Rattle.counterpoint.specs.Interval.{shift_in_range};
ghost use Rattle.rules.specs.Cells.{key_of};
ghost use Rattle.rules.specs.Plain.{places_of};
ghost use Rattle.rules.specs.Meeting.{theme_at, voice_of_mark, voice_of_cell, accent_at, met, moment_of, succession_of};

use counterpoint::moments::{Accent, Moment, Succession, Voice};
use rules::combination::Combination;
use sheet::cells::{is_held, key_of};
use sheet::draft::Closed;
use theme::place::{Mark, Place};
use theme::theme::Theme;

// A closed sheet and a combination with an index in range and one of its places for an entry.
#[derive(Drop)]
pub(crate) struct Meeting<'a> {
    pub(crate) sheet: &'a Closed,
    pub(crate) combination: Combination,
    ghost shifted: { shift_in_range combination.jv ≡ true },
    ghost entered: { combination.entry < places_of sheet.now },
}

// The theme's place with this number.
fn place_at(theme: &Theme, number: usize) -> Place
    requires { number < length theme.now.places }
    ensures { result ≡ theme_at theme.now number }
{
    theme.place(number).unwrap()
}

// How the theme sounds at a place: no From can say it, both types being other crates'.
fn voice_of_mark(mark: Mark) -> Voice
    ensures { result ≡ voice_of_mark mark }
{
    match mark {
        Mark::Pin => Voice::Struck,
        Mark::Bridge => Voice::Held,
    }
}

// How the line sounds with a cell.
fn voice_of_cell(cell: u8) -> Voice
    ensures { result ≡ voice_of_cell cell }
{
    if is_held(cell) {
        Voice::Held
    } else {
        Voice::Struck
    }
}

// How a place of the theme is accented.
fn accent_at(theme: &Theme, number: usize) -> Accent
    requires { 0 < length theme.now.places }
    ensures { result ≡ accent_at theme.now number }
{
    if number % theme.bar() == 0 {
        Accent::Strong
    } else {
        Accent::Weak
    }
}

// The step from a key to another.
fn step(from: u8, to: u8) -> i32
    ensures value { result ≡ pos to -ℤ pos from }
    ensures low { neg_ℤ (pos 255) ≤ℤ result }
    ensures high { result ≤ℤ pos 255 }
{
    i32::from(to) - i32::from(from)
}

// The interval of a cell over a key of the theme, raised by an index.
fn interval(cell: u8, key: u8, jv: i32) -> i32
    requires { shift_in_range jv ≡ true }
    ensures { result ≡ (pos (key_of cell) -ℤ pos key) +ℤ jv }
{
    step(key, key_of(cell)) + jv
}

impl Meeting<'_> {
    // The theme's place that a place of the line meets, counted round the barrel.
    fn met(&self, place: usize) -> usize
        requires { place ≤ places_of self.now.sheet.now }
        ensures value { result ≡ met self.now.sheet.now self.now.combination place }
        ensures is_place { result < places_of self.now.sheet.now }
        ensures few { places_of self.now.sheet.now ≤ 64 }
    {
        let places = self.sheet.theme().len();
        (place + self.combination.entry) % places
    }

    // The moment of a cell at a place of the line.
    pub(crate) fn moment(&self, place: usize, cell: u8) -> Moment
        requires { place < places_of self.now.sheet.now }
        ensures { result ≡ moment_of self.now.sheet.now self.now.combination place cell }
    {
        let theme = self.sheet.theme();
        let number = self.met(place);
        let sounding = place_at(theme, number);
        Moment {
            interval: interval(cell, sounding.key, self.combination.jv),
            line: voice_of_cell(cell),
            theme: voice_of_mark(sounding.mark),
            accent: accent_at(theme, number),
        }
    }

    // The succession from a cell at a place of the line to the next cell.
    pub(crate) fn succession(&self, place: usize, cell: u8, next: u8) -> Succession
        requires { place < places_of self.now.sheet.now }
        ensures { result ≡ succession_of self.now.sheet.now self.now.combination place cell next }
    {
        let theme = self.sheet.theme();
        let left = place_at(theme, self.met(place));
        let number = self.met(place + 1);
        let entered = place_at(theme, number);
        Succession {
            first: self.moment(place, cell),
            dx: step(key_of(cell), key_of(next)),
            dc: step(left.key, entered.key),
            line: voice_of_cell(next),
            theme: voice_of_mark(entered.mark),
            accent: accent_at(theme, number),
        }
    }
}
