// One place of a theme, and the letter of its mark. Knows nothing of pages.
ghost use Rattle.std.specs.Prelude.{◌≡◌, Some};
ghost use Rattle.theme.specs.Places.{ReadsMark, letter_of, unknown_mark_words};

use std::error::Error;
use std::fmt;

/// The highest key.
pub const HIGHEST_KEY: u8 = 23;

/// How a place of the theme sounds: struck by a pin, or held over a bridge from the place before.
#[derive(Clone, Copy, PartialEq, Eq, Hash, Debug)]
pub enum Mark {
    Pin,
    Bridge,
}

/// One place of a theme: its key, a diatonic step from 0 to 23, and its mark.
#[derive(Clone, Copy, PartialEq, Eq, Hash, Debug)]
pub struct Place {
    pub key: u8,
    pub mark: Mark,
}

/// A letter that is no mark's.
#[derive(Clone, Copy, PartialEq, Eq, Hash, Debug)]
pub struct UnknownMark;

impl TryFrom<u8> for Mark {
    type Error = UnknownMark;

    ghost try_from_gives = { ReadsMark };

    fn try_from(letter: u8) -> Result<Mark, UnknownMark> {
        match char::from(letter) {
            'p' => Ok(Mark::Pin),
            'b' => Ok(Mark::Bridge),
            _ => Err(UnknownMark),
        }
    }
}

impl From<Mark> for u8 {
    ghost from_gives = { λ mark letter. letter ≡ letter_of mark };

    fn from(mark: Mark) -> u8 {
        match mark {
            Mark::Pin => b'p',
            Mark::Bridge => b'b',
        }
    }
}

impl fmt::Display for UnknownMark {
    ghost output = { λ _. Some unknown_mark_words };

    fn fmt<W: fmt::Write>(&self, f: &mut fmt::Formatter<W>) -> fmt::Result {
        f.write_str("a mark is p or b")
    }
}

impl Error for UnknownMark {}
