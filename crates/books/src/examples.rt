// Examples worked by hand, put to the code.
// Knows nothing of themes, lines or sheets.
ghost use Rattle.std.specs.Prelude.{◌≡◌, true};
ghost use Rattle.books.specs.Examples.{WorkedExamples, both_struck, struck_twice, suspended_fourth};

use crate::strict::Strict;
use counterpoint::book::Book;
use counterpoint::interval::class;
use counterpoint::kinds::{IntervalKind, kind};
use counterpoint::moments::{Accent, Moment, Succession, Voice};

// Both voices struck on a strong place.
fn both_struck(interval: i32) -> Moment
    ensures { result ≡ both_struck Accent.Strong interval }
{
    Moment {
        interval,
        line: Voice::Struck,
        theme: Voice::Struck,
        accent: Accent::Strong,
    }
}

// Both voices struck on a strong place and then on a weak one.
fn struck_twice(interval: i32, dx: i32, dc: i32) -> Succession
    ensures { result ≡ struck_twice Accent.Strong Accent.Weak interval dx dc }
{
    Succession {
        first: both_struck(interval),
        dx,
        dc,
        line: Voice::Struck,
        theme: Voice::Struck,
        accent: Accent::Weak,
    }
}

// A strong fourth with the line held, which goes on by `dx` to a weak place while the theme stays.
fn suspended_fourth(dx: i32) -> Succession
    ensures { result ≡ suspended_fourth Accent.Weak dx }
{
    let fourth = Moment {
        interval: 3,
        line: Voice::Held,
        theme: Voice::Struck,
        accent: Accent::Strong,
    };
    Succession {
        first: fourth,
        dx,
        dc: 0,
        line: Voice::Struck,
        theme: Voice::Held,
        accent: Accent::Weak,
    }
}

fn intervals_hold() -> bool
    ensures { result ≡ true }
{
    class(-3) == 3
        && kind(-11, 5) == Ok(IntervalKind::VariableConsonance)
        && kind(-11, 6) == Ok(IntervalKind::VariableDissonance)
}

fn moments_hold() -> bool
    ensures { result ≡ true }
{
    Strict.admits(both_struck(100)) && !Strict.admits(both_struck(102))
}

fn thirds_and_fifths_hold() -> bool
    ensures { result ≡ true }
{
    !Strict.allows(struck_twice(2, 3, 1))
        && !Strict.allows(struck_twice(4, 1, 1))
        && Strict.allows(struck_twice(2, 1, 1))
}

fn suspensions_hold() -> bool
    ensures { result ≡ true }
{
    Strict.allows(suspended_fourth(-1)) && !Strict.allows(suspended_fourth(1))
}

/// Whether the code answers the worked examples as they were worked by hand: it does.
pub fn worked_examples() -> bool
    ensures answer { result ≡ true }
    ensures fact { WorkedExamples }
{
    intervals_hold() && moments_hold() && thirds_and_fifths_hold() && suspensions_hold()
}
