// What becomes of an interval when the line is shifted against the theme.
// Knows nothing of moments or books.
ghost use Rattle.std.specs.Prelude.{◌≡◌, true};
ghost use Rattle.counterpoint.specs.Interval.{interval_in_range, shift_in_range};
ghost use Rattle.counterpoint.specs.Kind.{derived, kind_number, kind_answer};

use crate::interval::{is_consonant, is_interval_in_range, is_shift_in_range};
use crate::refusal::Refusal;

/// An interval by what it is, and by whether the shifted interval is the same.
/// As a `u8` it is the number by which it is reported, 0 to 3.
#[derive(Clone, Copy, PartialEq, Eq, Hash, Debug)]
pub enum IntervalKind {
    /// A consonance that stays one.
    FixedConsonance = 0,
    /// A consonance that becomes a dissonance.
    VariableConsonance = 1,
    /// A dissonance that stays one.
    FixedDissonance = 2,
    /// A dissonance that becomes a consonance.
    VariableDissonance = 3,
}

impl From<IntervalKind> for u8 {
    ghost from_gives = { λ kind number. number ≡ kind_number kind };

    fn from(kind: IntervalKind) -> u8 {
        kind as u8
    }
}

// The interval that the line makes when it is shifted by the index.
fn derived(jv: i32, interval: i32) -> i32
    requires shift { shift_in_range jv ≡ true }
    requires interval { interval_in_range interval ≡ true }
    ensures { result ≡ derived jv interval }
{
    interval + jv
}

/// The kind of an interval under the index `jv`, by which the line is shifted against the theme.
/// Refused where `jv` is not -23 to 23, and then where the interval is not -100 to 100.
pub fn kind(jv: i32, interval: i32) -> Result<IntervalKind, Refusal>
    ensures { result ≡ kind_answer jv interval }
{
    if !is_shift_in_range(jv) {
        return Err(Refusal::ShiftOutOfRange);
    }
    if !is_interval_in_range(interval) {
        return Err(Refusal::IntervalOutOfRange);
    }
    Ok(
        match (is_consonant(interval), is_consonant(derived(jv, interval))) {
            (true, true) => IntervalKind::FixedConsonance,
            (true, false) => IntervalKind::VariableConsonance,
            (false, false) => IntervalKind::FixedDissonance,
            (false, true) => IntervalKind::VariableDissonance,
        },
    )
}
