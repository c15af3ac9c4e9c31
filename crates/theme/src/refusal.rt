// Why a page is not read or not written. Knows nothing of themes.
ghost use Rattle.std.specs.Prelude.{◌≡◌, Some};
ghost use Rattle.theme.specs.Refusals.{page_number, page_refused_words, refused, write_number, write_refused_words};

use std::error::Error;
use std::fmt;

/// Where a field of a page starts: its line and its column, both counted from 1.
#[derive(Clone, Copy, PartialEq, Eq, Hash, Debug)]
pub struct Position {
    pub line: usize,
    pub column: usize,
}

/// What is wrong with a page.
#[derive(Clone, Copy, PartialEq, Eq, Hash, Debug)]
pub enum Reason {
    /// The ninth byte is no newline.
    HeadUnended = 1,
    /// The number of places or the bar length is no number.
    HeadNotANumber = 2,
    /// The number of places is not 1 to 64.
    PlacesOutOfRange = 3,
    /// The bar length is not 1 to the number of places, or does not divide it.
    BarUnfit = 4,
    /// The page is longer or shorter than its head says.
    WrongLength = 5,
    /// A row lacks the blank before its mark or the newline at its end.
    BrokenRow = 6,
    /// A row does not begin with the number of its place.
    WrongPlaceNumber = 7,
    /// The key is no number; an empty field is none.
    KeyNotANumber = 8,
    /// The key is above 23.
    KeyOutOfRange = 9,
    /// The mark is neither `p` nor `b`.
    UnknownMark = 10,
    /// A bridge at place 0, or one that does not repeat the key before it.
    UnlawfulBridge = 11,
}

/// The first thing that is wrong with a page, and where the field starts that was refused.
#[derive(Clone, Copy, PartialEq, Eq, Hash, Debug)]
pub struct PageRefusal {
    pub reason: Reason,
    pub at: Position,
}

impl Reason {
    /// The refusal of the field at this line and column.
    pub fn at(self, line: usize, column: usize) -> PageRefusal
        ensures { result ≡ refused self line column }
    {
        PageRefusal {
            reason: self,
            at: Position { line, column },
        }
    }
}

/// The number by which the workshop knows a refusal.
impl From<PageRefusal> for u32 {
    ghost from_gives = { λ refusal number. number ≡ page_number refusal };

    fn from(refusal: PageRefusal) -> u32 {
        refusal.reason as u32
    }
}

impl fmt::Display for PageRefusal {
    ghost output = { λ refusal. Some (page_refused_words refusal) };

    fn fmt<W: fmt::Write>(&self, f: &mut fmt::Formatter<W>) -> fmt::Result {
        let number = u32::from(*self);
        write!(f, "refused {number} at {}:{}", self.at.line, self.at.column)
    }
}

impl Error for PageRefusal {}

/// Why a theme's page is not written.
#[derive(Clone, Copy, PartialEq, Eq, Hash, Debug)]
pub enum WriteRefusal {
    /// No page has been read yet.
    NoTheme = 12,
    /// The buffer is shorter than the page.
    OutputTooShort = 37,
}

/// The number by which the workshop knows a refusal.
impl From<WriteRefusal> for u32 {
    ghost from_gives = { λ refusal number. number ≡ write_number refusal };

    fn from(refusal: WriteRefusal) -> u32 {
        refusal as u32
    }
}

impl fmt::Display for WriteRefusal {
    ghost output = { λ refusal. Some (write_refused_words refusal) };

    fn fmt<W: fmt::Write>(&self, f: &mut fmt::Formatter<W>) -> fmt::Result {
        let number = u32::from(*self);
        write!(f, "refused {number}")
    }
}

impl Error for WriteRefusal {}
