// Why the engine cannot answer.
// Knows nothing of passages or measures.
ghost use Rattle.std.specs.Prelude.{Some};
ghost use Rattle.engine.specs.Unfits.{unfit_words};

use std::error::Error;
use std::fmt;

/// What was asked of the engine that it has no answer for.
#[derive(Clone, Copy, PartialEq, Eq, Hash, Debug)]
pub enum Unfit {
    /// There are not 1 to 64 places.
    Places,
    /// There are fewer than 48 values of working memory for each place.
    Memory,
    /// There are fewer cells in the line buffer than places.
    Line,
    /// The number is over 999,999,999.
    Number,
}

impl fmt::Display for Unfit {
    ghost output = { λ unfit. Some (unfit_words unfit) };

    fn fmt<W: fmt::Write>(&self, f: &mut fmt::Formatter<W>) -> fmt::Result {
        f.write_str(match self {
            Unfit::Places => "there are not 1 to 64 places",
            Unfit::Memory => "there are fewer than 48 values of memory for each place",
            Unfit::Line => "there are fewer cells in the line buffer than places",
            Unfit::Number => "the number is over 999,999,999",
        })
    }
}

impl Error for Unfit {}
