// Why a question of this crate is refused.
// Knows nothing of the questions themselves.
ghost use Rattle.std.specs.Prelude.{◌≡◌, Some};
ghost use Rattle.counterpoint.specs.Refusal.{refusal_number, refusal_words};

use std::error::Error;
use std::fmt;

/// Why a call said no. As a `u8` it is the number by which it is reported.
#[derive(Clone, Copy, PartialEq, Eq, Hash, Debug)]
pub enum Refusal {
    /// The shift of the line is not -23 to 23.
    ShiftOutOfRange = 13,
    /// The interval is not -100 to 100.
    IntervalOutOfRange = 32,
}

impl From<Refusal> for u8 {
    ghost from_gives = { λ refusal number. number ≡ refusal_number refusal };

    fn from(refusal: Refusal) -> u8 {
        refusal as u8
    }
}

impl fmt::Display for Refusal {
    ghost output = { λ refusal. Some (refusal_words refusal) };

    fn fmt<W: fmt::Write>(&self, f: &mut fmt::Formatter<W>) -> fmt::Result {
        f.write_str(match self {
            Refusal::ShiftOutOfRange => "the shift is not -23 to 23",
            Refusal::IntervalOutOfRange => "the interval is not -100 to 100",
        })
    }
}

impl Error for Refusal {}
