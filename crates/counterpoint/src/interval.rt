// Intervals between line and theme, counted in diatonic steps, and their classes.
// Knows nothing of moments or books.
ghost use Rattle.std.specs.Prelude.{◌≡◌};
ghost use Rattle.counterpoint.specs.Interval.{class_of, perfect, consonant, dissonant, interval_in_range, shift_in_range};

/// The largest interval, up or down, that is ever judged.
pub const WIDEST_INTERVAL: u32 = 100;

/// The largest step or shift, up or down, that is ever judged.
pub const WIDEST_STEP: u32 = 23;

// The rules know a class by its number, 0 to 6, so it is one, and no enum.
/// The class of an interval: its size without sign, modulo 7.
pub fn class(interval: i32) -> u32
    ensures { result ≡ class_of interval }
{
    interval.unsigned_abs() % 7
}

/// Whether an interval is a perfect consonance.
pub fn is_perfect(interval: i32) -> bool
    ensures { result ≡ perfect interval }
{
    matches!(class(interval), 0 | 4)
}

/// Whether an interval is a consonance, perfect or imperfect.
pub fn is_consonant(interval: i32) -> bool
    ensures { result ≡ consonant interval }
{
    matches!(class(interval), 0 | 2 | 4 | 5)
}

/// Whether an interval is a dissonance.
pub fn is_dissonant(interval: i32) -> bool
    ensures { result ≡ dissonant interval }
{
    matches!(class(interval), 1 | 3 | 6)
}

// One function of the limit would be no plainer: it would stand for one comparison in each of two.
/// Whether an interval is -100 to 100.
pub fn is_interval_in_range(interval: i32) -> bool
    ensures { result ≡ interval_in_range interval }
{
    interval.unsigned_abs() <= WIDEST_INTERVAL
}

/// Whether a step or a shift is -23 to 23.
pub fn is_shift_in_range(shift: i32) -> bool
    ensures { result ≡ shift_in_range shift }
{
    shift.unsigned_abs() <= WIDEST_STEP
}
