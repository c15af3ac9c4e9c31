// Why a call on a sheet, a compass or a line says no. Knows nothing of any of them.
ghost use Rattle.std.specs.Prelude.{◌≡◌, Some};
ghost use Rattle.rules.specs.Refusals.{question_refusal, refusal_number, refused_words, sheet_refusal};

use engine::unfit::Unfit;
use std::error::Error;
use std::fmt;
use theme::refusal::WriteRefusal;

/// The first no of a call. A case carries what its answer adds to the number.
#[derive(Clone, Copy, PartialEq, Eq, Hash, Debug)]
pub enum Refusal {
    /// No theme is loaded.
    NoTheme,
    /// The index Jv is not -23 to 23.
    ShiftOutOfRange,
    /// The entry is not a place of the theme.
    EntryOutOfRange,
    /// The combination is listed already.
    AlreadyListed,
    /// Eight combinations are listed.
    ListFull,
    /// The combination is not listed, or it is the original, which stays.
    NotListed,
    /// The place is not one of the theme's.
    PlaceOutOfRange,
    /// The key is above 23.
    KeyOutOfRange,
    /// The lowest key lies above the highest, or the highest above 23.
    CompassUnfit,
    /// The place to be tried is above 63.
    TrialPlaceOutOfRange,
    /// The key to be tried lies outside the compass.
    TrialKeyOutOfCompass,
    /// The tried place is not one of the theme's.
    TrialBeyondTheme,
    /// There are fewer than 48 working values for each place.
    MemoryTooShort,
    /// The line buffer has too few cells, or for a given line not just as many as there are places.
    LineUnfit,
    /// The number to be picked is above 999,999,999.
    NumberTooLarge,
    /// The cells are no line, from this place on.
    NotALine { place: usize },
    /// The compass, the trial or a fixed key is not kept at this place.
    NotKept { place: usize },
    /// The book says no at this place of this combination.
    BookSaysNo { combination: usize, place: usize },
    /// No line stands.
    NoLineStands,
    /// The number to be picked is not below the number of standing lines.
    NumberNotBelowCount,
    /// The output buffer is too short.
    OutputTooShort,
}

/// The number by which the workshop knows a refusal.
impl From<Refusal> for u32 {
    ghost from_gives = { λ refusal number. number ≡ refusal_number refusal };

    fn from(refusal: Refusal) -> u32 {
        match refusal {
            Refusal::NoTheme => 12,
            Refusal::ShiftOutOfRange => 13,
            Refusal::EntryOutOfRange => 14,
            Refusal::AlreadyListed => 15,
            Refusal::ListFull => 16,
            Refusal::NotListed => 17,
            Refusal::PlaceOutOfRange => 18,
            Refusal::KeyOutOfRange => 19,
            Refusal::CompassUnfit => 20,
            Refusal::TrialPlaceOutOfRange => 21,
            Refusal::TrialKeyOutOfCompass => 22,
            Refusal::TrialBeyondTheme => 23,
            Refusal::MemoryTooShort => 24,
            Refusal::LineUnfit => 25,
            Refusal::NumberTooLarge => 26,
            Refusal::NotALine { .. } => 27,
            Refusal::NotKept { .. } => 28,
            Refusal::BookSaysNo { .. } => 29,
            Refusal::NoLineStands => 30,
            Refusal::NumberNotBelowCount => 31,
            Refusal::OutputTooShort => 37,
        }
    }
}

/// A theme's refusal to be written, as a refusal of the sheet that has the theme.
impl From<WriteRefusal> for Refusal {
    ghost from_gives = { λ theirs ours. ours ≡ sheet_refusal theirs };

    fn from(refusal: WriteRefusal) -> Refusal {
        match refusal {
            WriteRefusal::NoTheme => Refusal::NoTheme,
            WriteRefusal::OutputTooShort => Refusal::OutputTooShort,
        }
    }
}

/// What the engine has no answer for, as a refusal of the question that is asked of a sheet.
impl From<Unfit> for Refusal {
    ghost from_gives = { λ theirs ours. ours ≡ question_refusal theirs };

    fn from(unfit: Unfit) -> Refusal {
        match unfit {
            Unfit::Places => Refusal::NoTheme,
            Unfit::Memory => Refusal::MemoryTooShort,
            Unfit::Line => Refusal::LineUnfit,
            Unfit::Number => Refusal::NumberTooLarge,
        }
    }
}

impl fmt::Display for Refusal {
    ghost output = { λ refusal. Some (refused_words refusal) };

    fn fmt<W: fmt::Write>(&self, f: &mut fmt::Formatter<W>) -> fmt::Result {
        let number = u32::from(*self);
        match self {
            Refusal::NotALine { place } | Refusal::NotKept { place } => {
                write!(f, "refused {number} at place {place}")
            }
            Refusal::BookSaysNo { combination, place } => {
                write!(
                    f,
                    "refused {number} in combination {combination} at place {place}"
                )
            }
            _ => write!(f, "refused {number}"),
        }
    }
}

impl Error for Refusal {}
