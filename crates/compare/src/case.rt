// What one comparison is about: a theme, a list, fixed keys, a compass and rules, as plain values.
// Knows nothing of sheets.
ghost use Rattle.std.specs.Prelude.{◌+◌, ◌-◌, ◌<◌, ◌≤◌, ◌≡◌, vec_len};

use crate::restated::Rules;
use counterpoint::moments::{Accent, Voice};
use engine::verdicts::CELLS;
use rules::combination::Combination;
use rules::trial::Trial;

/// The most places of a case.
pub const MOST: usize = 4;

/// How many working values the questions need for so many places.
pub const ROOM: usize = CELLS * MOST;

/// What there is at a place: a key of the theme, how it sounds, and the key fixed there, if any.
#[derive(Clone, Copy)]
pub struct Place {
    pub key: u8,
    pub voice: Voice,
    pub accent: Accent,
    pub fixed: Option<u8>,
}

/// The keys that a line may use, one at least. A script's keys are two numbers that may yet be refused; these never are.
#[derive(Clone, Copy)]
pub struct Keys {
    pub lowest: u8,
    pub highest: u8,
    ghost ordered: { lowest ≤ highest },
    ghost within: { highest ≤ 23 },
}

impl Keys {
    /// Whether a key is one of them.
    pub(crate) fn contains(self, key: u8) -> bool {
        (self.lowest..=self.highest).contains(&key)
    }

    /// How many there are.
    pub(crate) fn count(self) -> u8
        ensures { result ≡ self.highest - self.lowest + 1 }
    {
        self.highest - self.lowest + 1
    }
}

/// What one comparison is about.
#[derive(Drop)]
pub struct Case {
    pub places: Vec<Place>,
    pub bar: u8,
    pub combinations: Vec<Combination>,
    pub keys: Keys,
    pub trial: Option<Trial>,
    pub rules: Rules,
    /// Strings of cells of any kind, to be judged besides those in the compass.
    pub strays: Vec<Vec<u8>>,
    ghost inhabited: { 0 < vec_len places },
    ghost few: { vec_len places ≤ 4 },
}

impl Case {
    /// What there is at a place, counted round the barrel.
    pub(crate) fn place(&self, place: usize) -> Place {
        self.places[place % self.places.len()]
    }
}
