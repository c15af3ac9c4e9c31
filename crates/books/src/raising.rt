// Raising the line against the theme. Knows nothing of books.
ghost use Rattle.std.specs.Prelude.{◌≡◌, true};
ghost use Rattle.counterpoint.specs.Interval.{shift_in_range};
ghost use Rattle.counterpoint.specs.Moments.{moment_in_range, raised, raised_succession, second_moment};

use counterpoint::moments::{Moment, Succession};

// The same moment with the line raised by `shift`.
pub(crate) fn raise(moment: Moment, shift: i32) -> Moment
    requires moment { moment_in_range moment ≡ true }
    requires shift { shift_in_range shift ≡ true }
    ensures { result ≡ raised shift moment }
{
    Moment {
        interval: moment.interval + shift,
        ..moment
    }
}

// The same succession with the line raised by `shift` at both moments.
pub(crate) fn raise_both(succession: Succession, shift: i32) -> Succession
    requires first { moment_in_range succession.first ≡ true }
    requires shift { shift_in_range shift ≡ true }
    ensures answer { result ≡ raised_succession shift succession }
    ensures second { second_moment (raised_succession shift succession) ≡ raised shift (second_moment succession) }
{
    Succession {
        first: raise(succession.first, shift),
        ..succession
    }
}
